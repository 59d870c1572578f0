// The steps of a walk over the growth partitions: the bundles that are open to the next item, and what a search keeps of a partition that it
// looks at and of a branch that it passes over.
#![tactic(auto)]

ghost use Rattle.std.specs.Prelude.{◌≡◌, ◌+◌, min};
ghost use Rattle.sheet.specs.Limits.{most_agents, most_items, greatest_sum};
ghost use Rattle.walk_steps.specs.Scan.{looking, passing};
ghost use Rattle.walk_steps.specs.Branches.{count_at, is_wasted};

use growth::Counts;
use sheet::Sheet;

// The bundle of each item of the set in rising order, 0 after the last.
pub type Partition = [u8; Sheet::ITEMS];

// The first best partition so far, and the least bundle that a partition has to reach to take its place.
#[derive(Clone, Copy)]
pub struct Best {
    pub goal: u64,
    pub partition: Partition,
}

// A search that is under way: the best so far, and how many growth partitions it may still look at.
#[derive(Clone, Copy)]
pub struct Search {
    pub best: Best,
    pub allowance: u32,
}

// The number of bundles that the next item may go to: those in use and the next new one.
pub fn open_bundles(used: usize, bundles: usize) -> usize
    ensures { result ≡ min (used + 1) bundles }
{
    used.saturating_add(1).min(bundles)
}

impl Search {
    // The search once it looked at the partition, whose least bundle is `least`, counted up to the ceiling and the greatest sum of a sheet:
    // that is the best where it reaches the goal. An allowance that is spent looks at nothing.
    pub fn look(self, least: u64, ceiling: u64, partition: Partition) -> Search
        ensures { result ≡ looking (min (min least ceiling) greatest_sum) partition self }
    {
        if self.allowance == 0 {
            return self;
        }
        let low = least.min(ceiling).min(Sheet::GREATEST_SUM);
        let best = if self.best.goal <= low {
            Best {
                goal: low + 1,
                partition,
            }
        } else {
            self.best
        };
        Search {
            best,
            allowance: self.allowance - 1,
        }
    }

    // The search once the growth partitions of `left` more items, where `used` bundles are in use, are passed over: none reaches the goal.
    // An allowance that ends among them ends there. The items and the bundles are cut to the limits of a sheet.
    pub fn pass(self, counts: &Counts, left: usize, used: usize) -> Search
        ensures { result ≡ passing (count_at counts.now (min left most_items) (min used most_agents)) self }
    {
        let count = counts[left.min(Sheet::ITEMS)][used.min(Sheet::AGENTS)];
        Search {
            allowance: self.allowance.saturating_sub(count),
            ..self
        }
    }

    // Whether an item is wasted on a bundle that is in use, not the first, and has the goal already: on the first bundle it serves as well,
    // and that is tried before.
    pub fn is_wasted(&self, load: u64, bundle: usize, used: usize) -> bool
        ensures { result ≡ is_wasted self.now.best.goal load bundle used }
    {
        1 <= bundle && bundle < used && self.best.goal <= load
    }
}

// Cutting one valuation (row of marks): the maximin share of a set of items (pieces), and the first partition (layout) of them
// into bundles (piles) that reaches it; or, where an allowance stops the search, the best among the first growth partitions.
// The search walks the growth partitions depth first and leaves a branch that cannot be better. Where the allowance is enough it works out
// the share first, which does not depend on the order of the values, and then looks for the first partition that reaches it.
#![tactic(auto)]

ghost use Rattle.std.specs.Prelude.{◌≡◌, ◌≤◌, ◌<◌, ◌/◌, leb, length, replicate};
ghost use Rattle.lists.specs.Sums.{total};
ghost use Rattle.sheet.specs.Limits.{most_items};
ghost use Rattle.sheet.specs.Answers.{map_answer};
ghost use Rattle.sheet.specs.Refusals.{answer_of};
ghost use Rattle.growth.specs.Growth.{growths};
ghost use Rattle.cut.specs.Outcome.{placed, stored, whole_cut, stopped_cut, found, cutting};
ghost use Rattle.cut.specs.internal.Allowed.{Allowed};

use crate::sharing::deal;
use crate::sorting::falling;
use growth::{MOST, count};
use reach::pruning::supplied;
use sheet::refusal::Refusal;
use sheet::valuing::values_of;
use sheet::{Row, Sheet, is_within};
pub use walk_steps::Partition;
use walking::{find, find_after};

mod sharing;
mod sorting;

// The share; or, where the allowance stopped the cut, the best least bundle.
#[derive(Clone, Copy, Debug, PartialEq, Eq)]
pub enum Figure {
    Share(u64),
    Stopped(u64),
}

// What a cut finds: the figure, the partition that reaches it, and the number of growth partitions looked at.
#[derive(Clone, Copy)]
pub struct Cutting {
    pub figure: Figure,
    pub partition: Partition,
    pub count: u32,
}

// All of so many items in bundle 1.
fn all_in_first(count: usize) -> Partition
    requires { count ≤ most_items }
    ensures { result ≡ placed (replicate count 1) }
{
    let mut partition = [0u8; Sheet::ITEMS];
    partition[..count].fill(1);
    partition
}

// Values, a number of bundles and an allowance that are not refused.
#[derive(Clone, Copy)]
struct Request<'a> {
    values: &'a [u64],
    bundles: usize,
    allowance: u32,
    ghost allowed: { Allowed values.now bundles allowance },
}

impl Request<'_> {
    // The mean of the bundles, which no least bundle exceeds.
    fn mean(&self) -> u64
        ensures { result ≡ total self.now.values.now / self.now.bundles }
    {
        supplied(self.values, Sheet::GREATEST_SUM) / self.bundles as u64
    }

    // The cut that its allowance stops: one walk over the growth partitions in dictionary order, as far as the allowance goes.
    fn cut_stopped(&self) -> Cutting
        requires { self.now.allowance < growths self.now.bundles (length self.now.values.now) }
        ensures { result ≡ stored (stopped_cut self.now.bundles self.now.values.now self.now.allowance) }
    {
        let ceiling = self.mean();
        let end = find(self.values, self.bundles, ceiling, 0, self.allowance);
        // By a variable: no proof is made where an array field goes straight into a literal.
        let partition = end.best.partition;
        Cutting {
            figure: Figure::Stopped(end.best.goal - 1),
            partition,
            count: self.allowance - end.allowance,
        }
    }

    // The cut where the allowance is enough: the share first, over the values in falling order, and then a walk for the first partition that
    // reaches it, which ends there.
    fn cut_by_share(&self) -> Cutting
        requires { growths self.now.bundles (length self.now.values.now) ≤ self.now.allowance }
        ensures { result ≡ stored (whole_cut self.now.bundles self.now.values.now) }
    {
        let Request {
            values,
            bundles,
            allowance,
        } = *self;
        let sorted = falling(values);
        let ordered = &sorted[..values.len()];
        let ceiling = self.mean();
        let goal = deal(ordered, bundles) + 1;
        let end = find_after(ordered, values, bundles, ceiling, goal, allowance);
        // By a variable: no proof is made where an array field goes straight into a literal.
        let partition = end.best.partition;
        Cutting {
            figure: Figure::Share(end.best.goal - 1),
            partition,
            count: allowance - end.allowance,
        }
    }

    // The cut in one bundle, of which there is one partition.
    fn cut_in_one(&self) -> Cutting
        requires { self.now.bundles ≡ 1 }
        ensures { result ≡ stored (whole_cut 1 self.now.values.now) }
    {
        Cutting {
            figure: Figure::Share(self.mean()),
            partition: all_in_first(self.values.len()),
            count: 1,
        }
    }

    // Whether the allowance is enough for all growth partitions. The most that a cut has are enough without a count.
    fn is_enough(&self) -> bool
        ensures { result ≡ leb (growths self.now.bundles (length self.now.values.now)) self.now.allowance }
    {
        MOST <= self.allowance || count(self.values.len(), self.bundles) <= self.allowance
    }

    // The cut as far as the allowance goes.
    fn cut(&self) -> Cutting
        ensures { result ≡ stored (found self.now.bundles self.now.values.now self.now.allowance) }
    {
        if self.bundles == 1 {
            return self.cut_in_one();
        }
        if self.is_enough() {
            return self.cut_by_share();
        }
        self.cut_stopped()
    }
}

// The share of the items of `set` in `bundles` bundles, by the values of `valuation`, and the first partition in dictionary order
// that reaches it, with the number of growth partitions; or, where these outnumber the allowance, stopped: the best least bundle among
// the first so many, and the first partition of those that reaches it. Refused where the bundles lie outside the limits, else where the
// set names an item above the last, else where the allowance is 0.
pub fn cut(valuation: Row, set: u16, bundles: usize, allowance: u32) -> Result<Cutting, Refusal>
    ensures { answer_of result ≡ map_answer stored (cutting valuation set bundles allowance) }
{
    if !is_within(bundles, Sheet::AGENTS) {
        return Err(Refusal::AgentsOutside);
    }
    if Sheet::SETS <= set {
        return Err(Refusal::ItemsOutside);
    }
    if allowance == 0 {
        return Err(Refusal::AllowanceTooSmall);
    }
    let chosen = values_of(valuation, set);
    let request = Request {
        values: chosen.as_slice(),
        bundles,
        allowance,
    };
    Ok(request.cut())
}

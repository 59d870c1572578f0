// The walk over the growth partitions, depth first and in dictionary order, that keeps the first best as far as its allowance goes.
#![tactic(auto)]

ghost use Rattle.std.specs.Prelude.{◌≡◌, ◌-◌, ◌≤◌, min, length};
ghost use Rattle.sheet.specs.Limits.{most_agents, most_items};
ghost use Rattle.reach.specs.Pruning.{GreatestFrom};
ghost use Rattle.walking.specs.Walk.{Walkable, Counted, start, walked, searchable, finding, finding_after};

use growth::{Counts, counts_for};
use reach::loads::{Loads, least};
use reach::pruning::{is_out_of_reach, supplied};
use sheet::{Sheet, is_within};
use walk_steps::{Best, Partition, Search, open_bundles};

// A number for each item.
pub type Values = [u64; Sheet::ITEMS];

// What stays the same on a walk: the number of growth partitions of each branch, the number of bundles, the greatest of the values from each
// item on, and the ceiling up to which a least bundle counts.
#[derive(Clone, Copy)]
struct Walk<'a> {
    counts: &'a Counts,
    bundles: usize,
    greatest: Values,
    ceiling: u64,
}

// The first `at` items laid, on the bundles in use.
#[derive(Clone, Copy)]
struct Laid {
    at: usize,
    used: usize,
    loads: Loads,
    partition: Partition,
}

// In each place the greatest of the values from there on, and at least 1.
fn greatest_from_each(values: &[u64]) -> Values
    requires { length values.now ≤ most_items }
    ensures { GreatestFrom 0 values.now result }
{
    let mut greatest = [1u64; Sheet::ITEMS];
    let mut most: u64 = 1;
    for i in (0..values.len()).rev() {
        most = most.max(values[i]);
        greatest[i] = most;
    }
    greatest
}

impl Walk<'_> {
    // The search once it went through the growth partitions that go on from the items laid; the values are still to be laid. A branch in which
    // none reaches the goal is left, and the allowance falls by the number of its growth partitions at once.
    fn search(&self, values: &[u64], laid: &Laid, search: Search) -> Search
        requires walkable { Walkable values.now self.now.bundles laid.now.at laid.now.used laid.now.loads }
        requires counted { Counted self.now.bundles (length values.now) self.now.counts.now }
        requires greatest { GreatestFrom laid.now.at values.now self.now.greatest }
        ensures { result ≡ walked values.now self.now.bundles laid.now.at laid.now.used laid.now.loads laid.now.partition self.now.ceiling search }
    {
        if search.allowance == 0 {
            return search;
        }
        let Some((value, rest)) = values.split_first() else {
            let low = least(&laid.loads, self.bundles);
            return search.look(low, self.ceiling, laid.partition);
        };
        let most = self.greatest[laid.at];
        if is_out_of_reach(
            values,
            &laid.loads,
            self.bundles,
            most,
            self.ceiling,
            search.best.goal,
        ) {
            return search.pass(self.counts, values.len(), laid.used);
        }
        let mut next = *laid;
        next.at = laid.at + 1;
        let mut found = search;
        for bundle in 0..open_bundles(laid.used, self.bundles) {
            let load = laid.loads[bundle];
            next.used = laid.used.max(bundle + 1);
            if found.is_wasted(load, bundle, laid.used) {
                found = found.pass(self.counts, rest.len(), next.used);
            } else {
                next.loads[bundle] = load + *value;
                next.partition[laid.at] = bundle as u8 + 1;
                found = self.search(rest, &next, found);
                next.loads[bundle] = load;
            }
        }
        found
    }
}

// A search that has found nothing yet.
fn nothing(goal: u64, allowance: u32) -> Search
    ensures { result ≡ start goal allowance }
{
    let partition = [0; Sheet::ITEMS];
    Search {
        best: Best { goal, partition },
        allowance,
    }
}

// Whether values and a number of bundles lie within the limits of a cut.
fn is_searchable(values: &[u64], bundles: usize) -> bool
    ensures { result ≡ searchable values.now bundles }
{
    is_within(bundles, Sheet::AGENTS)
        && values.len() <= Sheet::ITEMS
        && supplied(values, Sheet::GREATEST_SUM + 1) <= Sheet::GREATEST_SUM
}

// The search of the values from empty bundles, by a table of counts for at least as many items. Its numbers stay numbers: a second search
// takes another ceiling and goal, so that a struct of them would be made anew for each.
fn find_by(
    values: &[u64],
    counts: &Counts,
    bundles: usize,
    ceiling: u64,
    goal: u64,
    allowance: u32,
) -> Search
    requires { Counted (min bundles most_agents) (min (length values.now) most_items) counts.now }
    ensures { result ≡ finding values.now bundles ceiling goal allowance }
{
    let search = nothing(goal, allowance);
    if !is_searchable(values, bundles) {
        return search;
    }
    let walk = Walk {
        counts,
        bundles,
        greatest: greatest_from_each(values),
        ceiling,
    };
    let none = Laid {
        at: 0,
        used: 0,
        loads: [0; Sheet::AGENTS],
        partition: [0; Sheet::ITEMS],
    };
    walk.search(values, &none, search)
}

// The search for a partition of the values whose least bundle, counted up to the ceiling, reaches the goal: the first best of the growth
// partitions, as far as the allowance goes. Nothing is found where the values or the bundles lie outside the limits of a cut.
pub fn find(values: &[u64], bundles: usize, ceiling: u64, goal: u64, allowance: u32) -> Search
    ensures { result ≡ finding values.now bundles ceiling goal allowance }
{
    let counts = counts_for(values.len(), bundles);
    find_by(values, &counts, bundles, ceiling, goal, allowance)
}

// Two searches, the first over values in an order that is quick to search: the least bundle that it finds is the goal and the ceiling of
// the search of the values.
pub fn find_after(
    ordered: &[u64],
    values: &[u64],
    bundles: usize,
    ceiling: u64,
    goal: u64,
    allowance: u32,
) -> Search
    ensures { result ≡ finding_after ordered.now values.now bundles ceiling goal allowance }
{
    let counts = counts_for(ordered.len().max(values.len()), bundles);
    let first = find_by(ordered, &counts, bundles, ceiling, goal, allowance);
    let least = first.best.goal.saturating_sub(1);
    find_by(values, &counts, bundles, least, least, allowance)
}

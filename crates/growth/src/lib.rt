// How many growth partitions (growth layouts) items have, worked out by the recurrence that counts them. Their meaning stands in specs/.
#![tactic(auto)]

ghost use Rattle.std.specs.Prelude.{◌≡◌, ◌≤◌, min};
ghost use Rattle.sheet.specs.Limits.{most_agents, most_items};
ghost use Rattle.growth.specs.Growth.{growths};
ghost use Rattle.growth.specs.Counts.{count_row, count_table};
ghost use Rattle.growth.specs.internal.Rows.{next_row, NextFits};

use sheet::Sheet;

// The most growth partitions that a cut within the limits has: those of twelve items into six bundles.
pub const MOST: u32 = 3403127;

// A place for each number of bundles in use, 0 to the most, and a blank one.
const USED: usize = Sheet::AGENTS + 2;

// How many growth partitions some more items have, by the number of bundles in use.
pub type CountRow = [u32; USED];

// A row for each number of items still to be laid, 0 to the most.
pub type Counts = [CountRow; Sheet::ITEMS + 1];

// The row for no item more: one partition, whatever is in use.
fn first_row(bundles: usize) -> CountRow
    requires { bundles ≤ most_agents }
    ensures { result ≡ count_row bundles 0 }
{
    let mut row = [0u32; USED];
    for used in 0..bundles + 1 {
        row[used] = 1;
    }
    row
}

// The row for one item more: it goes to one of the bundles in use, or to the next new one. Places above the number of bundles stay 0.
fn next_row(row: CountRow) -> CountRow
    requires { NextFits row }
    ensures { result ≡ next_row row }
{
    let mut next = [0u32; USED];
    for used in 0..Sheet::AGENTS + 1 {
        next[used] = used as u32 * row[used] + row[used + 1];
    }
    next
}

// The numbers of growth partitions of up to `items` items into `bundles` bundles; both are cut to the limits of a sheet.
pub fn counts_for(items: usize, bundles: usize) -> Counts
    ensures { result ≡ count_table (min bundles most_agents) (min items most_items) }
{
    let last = items.min(Sheet::ITEMS);
    let most = bundles.min(Sheet::AGENTS);
    let mut counts = [[0u32; USED]; Sheet::ITEMS + 1];
    counts[0] = first_row(most);
    for left in 0..last {
        counts[left + 1] = next_row(counts[left]);
    }
    counts
}

// The number of growth partitions of `items` items into `bundles` bundles; both are cut to the limits of a sheet.
pub fn count(items: usize, bundles: usize) -> u32
    ensures { result ≡ growths (min bundles most_agents) (min items most_items) }
{
    let mut row = first_row(bundles.min(Sheet::AGENTS));
    for _laid in 0..items.min(Sheet::ITEMS) {
        row = next_row(row);
    }
    row[0]
}

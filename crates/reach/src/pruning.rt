// When a branch of the walk may be left: the values still to be laid cannot bring every bundle to the goal. They are too few, or they
// give too little.
ghost use Rattle.std.specs.Prelude.{◌≡◌, ◌≤◌, min, max, ltb};
ghost use Rattle.sheet.specs.Limits.{most_agents};
ghost use Rattle.reach.specs.Loads.{load_of};
ghost use Rattle.reach.specs.Pruning.{counted_supply, demand, needed_by, is_short, is_out_of_reach};

use crate::loads::Loads;
use sheet::Sheet;

// The sum of the values, each counted up to `most`. Their number is cut to the items of a sheet, and `most` to one above its greatest sum.
pub fn supplied(values: &[u64], most: u64) -> u64
    ensures { result ≡ counted_supply most values.now }
{
    let threshold = most.min(Sheet::GREATEST_SUM + 1);
    let mut sum: u64 = 0;
    for value in &values[..values.len().min(Sheet::ITEMS)] {
        sum += (*value).min(threshold);
    }
    sum
}

// Whether the first `bundles` loads lack more of the goal than `amount`, each lack counted up to `most`.
fn lacks_more(loads: &Loads, bundles: usize, goal: u64, most: u64, amount: u64) -> bool
    requires { bundles ≤ most_agents }
    ensures { result ≡ ltb amount (demand goal (load_of loads.now) bundles most) }
{
    let mut left = amount;
    for load in &loads[..bundles] {
        if *load < goal {
            let lack = (goal - *load).min(most);
            if left < lack {
                return true;
            }
            left -= lack;
        }
    }
    false
}

// Whether no partition of the values on top of the loads can reach the goal: for some bundle's lack as the threshold, the bundles
// lack more than the values supply.
fn is_short(values: &[u64], loads: &Loads, bundles: usize, goal: u64) -> bool
    requires { bundles ≤ most_agents }
    ensures { result ≡ is_short goal (load_of loads.now) bundles values.now }
{
    loads[..bundles].iter().any(|load| {
        *load < goal
            && {
                let most = goal - *load;
                lacks_more(loads, bundles, goal, most, supplied(values, most))
            }
    })
}

// Whether the first `bundles` loads need more than `count` values, none greater than `most`, to reach the goal.
fn needs_more(loads: &Loads, bundles: usize, goal: u64, most: u64, count: u64) -> bool
    requires { (bundles ≤ most_agents) × (1 ≤ most) }
    ensures { result ≡ ltb count (needed_by goal (load_of loads.now) bundles most) }
{
    let mut left = count;
    for load in &loads[..bundles] {
        if *load < goal {
            let due = (goal - *load).div_ceil(most);
            if left < due {
                return true;
            }
            left -= due;
        }
    }
    false
}

// Whether the goal is out of reach: it is above the ceiling, or the values, none greater than `most`, are too few for what the bundles
// lack, or give too little. The number of bundles is cut to the limits of a cut.
pub fn is_out_of_reach(
    values: &[u64],
    loads: &Loads,
    bundles: usize,
    most: u64,
    ceiling: u64,
    goal: u64,
) -> bool
    ensures { result ≡ is_out_of_reach ceiling goal (load_of loads.now) (min bundles most_agents) values.now (max 1 most) }
{
    let last = bundles.min(Sheet::AGENTS);
    ceiling < goal
        || needs_more(loads, last, goal, most.max(1), values.len() as u64)
        || is_short(values, loads, last, goal)
}

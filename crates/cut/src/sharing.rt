// A quick figure that the maximin share reaches.
ghost use Rattle.std.specs.Prelude.{◌≤◌, ◌<◌};
ghost use Rattle.lists.specs.Sums.{total};
ghost use Rattle.sheet.specs.Limits.{most_agents, greatest_sum};
ghost use Rattle.maximin.specs.Share.{maximin_share};

use reach::loads::{Loads, least};
use sheet::Sheet;

// One of the least of the first `bundles` loads. Only that it is one of them is relied on.
fn lightest(loads: &Loads, bundles: usize) -> usize
    requires { (1 ≤ bundles) × (bundles ≤ most_agents) }
    ensures { result < bundles }
{
    let mut light: usize = 0;
    for i in 1..bundles {
        if loads[i] < loads[light] {
            light = i;
        }
    }
    light
}

// The least bundle once each value in turn is put on one of the lightest bundles. The share reaches it.
pub(crate) fn deal(values: &[u64], bundles: usize) -> u64
    requires { (total values.now ≤ greatest_sum) × (1 ≤ bundles) × (bundles ≤ most_agents) }
    ensures { result ≤ maximin_share bundles values.now }
{
    let mut loads = [0u64; Sheet::AGENTS];
    for value in values {
        let light = lightest(&loads, bundles);
        loads[light] += *value;
    }
    least(&loads, bundles)
}

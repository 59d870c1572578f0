// The loads of the bundles (piles): the values that lie on each.
ghost use Rattle.std.specs.Prelude.{◌≡◌};
ghost use Rattle.lists.specs.Sums.{least_of};
ghost use Rattle.reach.specs.Loads.{load_of, limited_bundles};

use sheet::Sheet;

// The sum of the values on each bundle.
pub type Loads = [u64; Sheet::AGENTS];

// The least of the first `bundles` loads; their number is cut to the limits of a cut.
pub fn least(loads: &Loads, bundles: usize) -> u64
    ensures { result ≡ least_of (load_of loads.now) (limited_bundles bundles) }
{
    let mut low = loads[0];
    for i in 1..bundles.min(Sheet::AGENTS) {
        low = low.min(loads[i]);
    }
    low
}

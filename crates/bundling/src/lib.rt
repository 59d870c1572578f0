// The bundles (piles) of a partition (layout), as lists and as sets of items.
#![tactic(auto)]

ghost use Rattle.std.specs.Prelude.{◌≡◌};
ghost use Rattle.sheet.specs.Sets.{items_of};
ghost use Rattle.bundling.specs.Bundles.{bundle, bundle_sets};

use cut::Partition;
use sheet::listing::CopyList;
use sheet::naming::{items_of, set_of};
use sheet::{Sets, Sheet};

// The items of the set that the partition puts into one bundle: its entries follow the items in rising order.
pub fn bundle_of(set: u16, partition: Partition, number: u8) -> CopyList<u8>
    ensures { result ≡ bundle (items_of set) partition number }
{
    let items = items_of(set);
    let mut bundle = CopyList::new();
    for (item, place) in items.as_slice().iter().zip(&partition) {
        if *place == number {
            bundle.push(*item);
        }
    }
    bundle
}

// The set of each bundle of the partition.
pub fn bundle_sets(set: u16, partition: Partition) -> Sets
    ensures { result ≡ bundle_sets set partition }
{
    let mut sets = [0; Sheet::AGENTS];
    for i in 0..Sheet::AGENTS {
        let bundle = bundle_of(set, partition, i as u8 + 1);
        sets[i] = set_of(bundle.as_slice());
    }
    sets
}

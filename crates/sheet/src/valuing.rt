// The values of the items of a set, and their sum.
ghost use Rattle.std.specs.Prelude.{◌≡◌, ◌≤◌, ◌<◌};
ghost use Rattle.lists.specs.Sums.{total};
ghost use Rattle.sheet.specs.Limits.{value_bound, greatest_sum};
ghost use Rattle.sheet.specs.Sets.{items_of};
ghost use Rattle.sheet.specs.Valuations.{item_value, values_of, value};

use crate::Row;
use crate::listing::CopyList;
use crate::naming::items_of;

// The value of an item, and 0 for an item above the last.
fn item_value(valuation: Row, item: u8) -> u64
    requires { 1 ≤ item }
    ensures value { result ≡ item_value valuation item }
    ensures bound { result < value_bound }
{
    match valuation.get(item as usize - 1) {
        Some(mark) => u64::from(*mark),
        None => 0,
    }
}

// The values of the items of a set, in rising order of the items.
pub fn values_of(valuation: Row, set: u16) -> CopyList<u64>
    ensures values { result ≡ values_of valuation set }
    ensures bound { total (values_of valuation set) ≤ greatest_sum }
{
    let items = items_of(set);
    let mut values = CopyList::new();
    for item in items.as_slice() {
        values.push(item_value(valuation, *item));
    }
    values
}

// The value of the items of a set: the sum of their marks.
pub fn value_of(valuation: Row, set: u16) -> u64
    ensures { (result ≡ value valuation (items_of set)) × (result ≤ greatest_sum) }
{
    values_of(valuation, set).as_slice().iter().sum()
}

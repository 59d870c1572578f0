// Which items a set names.
ghost use Rattle.std.specs.Prelude.{◌≡◌, min};
ghost use Rattle.lists.specs.Lists.{range};
ghost use Rattle.sheet.specs.Limits.{most_items};
ghost use Rattle.sheet.specs.Sets.{items_of, set_of, set_among};

use crate::Sheet;
use crate::listing::CopyList;

// The items of a set, in rising order.
pub fn items_of(set: u16) -> CopyList<u8>
    ensures { result ≡ items_of set }
{
    let mut items = CopyList::new();
    for i in 0..Sheet::SET_BITS as u8 {
        if (set >> i) % 2 == 1 {
            items.push(i + 1);
        }
    }
    items
}

// The set of the items from 1 to `items`, or to the last of a sheet where that comes before.
pub fn all_items(items: usize) -> u16
    ensures { result ≡ set_of (range 1 (min items most_items)) }
{
    (1 << items.min(Sheet::ITEMS)) - 1
}

// The set of the items that stand in the list; other numbers, 0 among them, are passed over.
pub fn set_of(numbers: &[u8]) -> u16
    ensures { result ≡ set_among numbers.now }
{
    let mut set = 0;
    for i in 0..Sheet::SET_BITS as u8 {
        if numbers.contains(&(i + 1)) {
            set += 1 << i;
        }
    }
    set
}

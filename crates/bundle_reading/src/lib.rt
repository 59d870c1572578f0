// Reading a bundle (pile) of a division at any place of a text: its items, in rising order, as a set.
#![tactic(auto)]

ghost use Rattle.std.specs.Prelude.{◌≤◌, ◌-◌, ◌^◌, min, ◌≡◌};
ghost use Rattle.sheet.specs.Limits.{most_items};
ghost use Rattle.tokens.specs.Tokens.{tokens};
ghost use Rattle.tokeniser.specs.Places.{tokens_at};
ghost use Rattle.bundle_reading.specs.Bundles.{rising_items, bundle_after};
ghost use Rattle.bundle_reading.specs.Results.{bundle_from};

use lexing::forms::{follow, read_number};
use sheet::Sheet;
use tokeniser::Cursor;

// What each pile ends with.
const PILE_END: [u8; 1] = *b")";

// The set of one item.
fn set_of_item(item: usize) -> u16
    requires { (1 ≤ item) × (item ≤ most_items) }
    ensures { result ≡ 2 ^ (item - 1) }
{
    1 << (item - 1)
}

// The set of items of the sheet that stand here in rising order, and the place after them.
fn rising_items(s: &[u8], c: Cursor, items: usize) -> Option<(u16, Cursor)>
    requires { items ≤ most_items }
    ensures { result ≡ bundle_from s.now c (rising_items items 0 (tokens_at s.now c)) }
{
    let mut set: u16 = 0;
    let mut above: usize = 0;
    let mut here = c;
    while let Some((number, next)) = read_number(s, here, Sheet::COUNT_DIGITS) {
        let item = number as usize;
        if item <= above || items < item {
            return None;
        }
        set += set_of_item(item);
        above = item;
        here = next;
    }
    Some((set, here))
}

// The set of a bundle (pile) behind a form's text, for so many items, of no more than a sheet may have, and the place after it.
pub fn bundle_after(s: &[u8], c: Cursor, form: &[u8], items: usize) -> Option<(u16, Cursor)>
    ensures { result ≡ bundle_from s.now c (bundle_after (tokens form.now) (min items most_items) (tokens_at s.now c)) }
{
    let first = follow(s, c, form)?;
    let (set, last) = rising_items(s, first, items.min(Sheet::ITEMS))?;
    let next = follow(s, last, &PILE_END)?;
    Some((set, next))
}

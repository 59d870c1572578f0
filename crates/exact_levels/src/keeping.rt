// What an agent (yard) can keep of each set of items (pieces) at the most, where it leaves the rest to those before.
ghost use Rattle.std.specs.Prelude.{◌≡◌, ◌+◌, ◌≤◌, ◌^◌};
ghost use Rattle.sheet.specs.Limits.{most_items};
ghost use Rattle.exact_levels.specs.internal.Keeping.{AllSets, greatest_kept, bonus_if, Started, CanKeep, BlockKept, CanKeepItem, ItemKept, MostKept};

use crate::{Levels, SETS};
use sheet::{Mark, Row};

// What is added where those before can be served from what is left to them: more than any value, so that one comparison of sums tells both,
// as the levels are worked out for 4,096 sets at once.
pub(crate) const SERVED: u64 = 1 << 40;

// For each set of items, the most that is kept of it, with `SERVED` more where those before can be served.
pub(crate) type Kept = [u64; SETS];

// A sum with one mark more, for which the bound leaves room: std's checked_add would add a branch that is never taken.
fn with_mark(sum: u64, mark: Mark) -> u64
    requires { sum ≤ greatest_kept }
    ensures { result ≡ sum + mark }
{
    sum + u64::from(mark)
}

// What is added for a set that is left to those before.
fn bonus(level: u8, before: u8) -> u64
    ensures { result ≡ bonus_if before level }
{
    if level < before { 0 } else { SERVED }
}

// Where nothing is kept yet, and each set is left whole to those before.
fn start(levels: &Levels, before: u8, sets: usize) -> Kept
    requires { sets ≤ 2 ^ most_items }
    ensures { Started levels.now before sets result }
{
    let mut kept: Kept = [0; SETS];
    for set in 0..sets {
        kept[set] = bonus(levels[set], before);
    }
    kept
}

// One item more may be kept: in a block of twice `bit` sets the second half have the item, and the first half are these without it.
fn keep_in_block(kept: &mut Kept, from: usize, bit: usize, mark: Mark)
    requires { CanKeep kept.old from bit }
    ensures { BlockKept kept.old from bit mark kept.new }
{
    let behind = from + bit;
    for i in 0..bit {
        let with_item = with_mark(kept[from + i], mark);
        kept[behind + i] = kept[behind + i].max(with_item);
    }
}

// One item more may be kept, of each set that has it.
fn keep_item(kept: &mut Kept, bit: usize, mark: Mark, sets: usize)
    requires { CanKeepItem kept.old bit sets }
    ensures { ItemKept kept.old bit mark sets kept.new }
{
    for from in (0..sets).step_by(2 * bit) {
        keep_in_block(kept, from, bit, mark);
    }
}

// The most that can be kept of each set of the first items, item by item.
pub(crate) fn keep_most(
    valuation: Row,
    levels: &Levels,
    before: u8,
    items: usize,
    sets: usize,
) -> Kept
    requires { AllSets items sets }
    ensures { MostKept valuation levels.now before items sets result }
{
    let mut kept = start(levels, before, sets);
    for i in 0..items {
        keep_item(&mut kept, 1 << i, valuation[i], sets);
    }
    kept
}

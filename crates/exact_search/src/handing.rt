// The bundles (piles) of an exact division, from the last agent (yard) to the first.
ghost use Rattle.std.specs.Prelude.{◌≡◌, ◌≤◌, ◌<◌, ◌^◌};
ghost use Rattle.exact_search.specs.internal.Handing.{may_leave, FirstLeft, CanHand, HandedOut};
ghost use Rattle.sheet.specs.Limits.{most_items};

use crate::parts::is_part;
use exact_levels::Levels;
use sheet::amounts::Amounts;
use sheet::valuing::value_of;
use sheet::{Contents, Row, Sets, Sheet};

// Whether an agent may leave a part of a set to those before it: they can be served from it, and the rest is worth the agent's share.
fn may_leave(valuation: Row, share: u64, level: u8, before: u8, part: u16, set: u16) -> bool
    requires { part ≤ set }
    ensures { result ≡ may_leave valuation share level before part set }
{
    before <= level && is_part(part, set) && share <= value_of(valuation, set - part)
}

// The first part of a set that an agent may leave to those before it.
fn left_by(valuation: Row, share: u64, levels: &Levels, before: u8, set: u16) -> u16
    requires { set < 2 ^ most_items }
    ensures { FirstLeft valuation share levels.now before set result }
{
    (0..set)
        .find(|part| may_leave(valuation, share, levels[*part as usize], before, *part, set))
        .unwrap_or(set)
}

// The bundles: each agent keeps what it does not leave to those before it, and the first keeps all that is left.
pub(crate) fn hand_out(contents: Contents, shares: Amounts, levels: &Levels, all: u16) -> Sets
    requires { CanHand contents.table shares contents.agents levels.now all }
    ensures { HandedOut contents.table shares contents.agents all result }
{
    let mut bundles = [0u16; Sheet::AGENTS];
    let mut left = all;
    for i in (1..contents.agents).rev() {
        let part = left_by(contents.table[i], shares[i], levels, i as u8, left);
        bundles[i] = left - part;
        left = part;
    }
    bundles[0] = left;
    bundles
}

// The search for a division of a sheet in which every agent (yard) has its whole maximin share (document 02, order 4). Its meaning
// stands in specs/ and in the crate `exact_division`.
#![tactic(auto)]

ghost use Rattle.shares.specs.Known.{SharesIn};
ghost use Rattle.exact_search.specs.Outcome.{Searched};

use crate::handing::hand_out;
use exact_levels::rank;
use shares::share_each;
use sheet::amounts::Amounts;
use sheet::naming::all_items;
use sheet::refusal::Refusal;
use sheet::{Contents, Sets};

mod handing;
mod parts;

// The search in a sheet that is not refused, with the shares of its agents: for each agent its bundle as a set of items, 0 after the last.
fn search(contents: Contents, shares: Amounts) -> Option<Sets>
    requires { SharesIn contents shares }
    ensures { Searched contents (Ok result) }
{
    let all = all_items(contents.items);
    let levels = rank(contents, shares);
    if (levels[all as usize] as usize) < contents.agents {
        return None;
    }
    Some(hand_out(contents, shares, &levels, all))
}

// A division of a sheet in which every agent has its whole maximin share, or `None` where there is none: for each agent its bundle as a set of
// items, 0 after the last. Refused as dividing the sheet is.
pub fn find_exact(contents: Contents) -> Result<Option<Sets>, Refusal>
    ensures { Searched contents result }
{
    let own = share_each(contents)?;
    Ok(search(contents, own.shares))
}

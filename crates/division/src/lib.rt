// Dividing a table of marks among its agents (yards). Its meaning stands in specs/ and in the crate `rounds`, the promise in proofs/Theorems.antt.
#![tactic(auto)]

ghost use Rattle.std.specs.Prelude.{◌≡◌};
ghost use Rattle.sheet.specs.Answers.{map_answer};
ghost use Rattle.sheet.specs.Refusals.{answer_of};
ghost use Rattle.rounds.specs.Division.{division_by_terms, answer};
ghost use Rattle.division.specs.Stored.{stored};
ghost use Rattle.division.specs.Promise.{Promised};
ghost use Rattle.division.specs.internal.Shared.{IsShared};

use crate::dividing::{Allocation, Instance, nothing_handed_out};
use cut::Partition;
use grading::{Assessed, assess};
use serving::cutter_of;
use shares::{Shares, share_each_within};
use sheet::amounts::Amounts;
use sheet::naming::all_items;
use sheet::refusal::Refusal;
use sheet::{Contents, Sets, Sheet};
use terms::{Terms, terms_for};

mod dividing;

// How many growth partitions each cut of the dividing program may look at: "The dividing program allows 4,000,000".
pub const ALLOWANCE: u32 = 4000000;

// A division: its grade; for each agent the worth of its bundle, the bundle as a set of items, its maximin share and its cut, that is the
// bundle of each item; the cutter of each round in turn. All places that are not in use are 0. Arrays side by side: bundles and cutters go on
// as they are, to a caller in C (`divide_table`), and worths and bundles come so from `assess` and the rounds.
#[derive(Clone, Copy)]
pub struct Division {
    pub grade: u8,
    pub worths: Amounts,
    pub bundles: Sets,
    pub shares: Amounts,
    pub cuts: [Partition; Sheet::AGENTS],
    pub cutters: [u8; Sheet::AGENTS],
}

// The division of a sheet that is not refused, by the terms, from the shares and the cuts: the first cutter's own cut serves the first round.
fn divide_shared(contents: Contents, terms: Terms, allowance: u32, own: Shares) -> Division
    requires { IsShared contents terms allowance own }
    ensures { result ≡ stored (division_by_terms contents terms) }
{
    let Shares { shares, cuts } = own;
    let instance = Instance {
        contents,
        shares,
        terms,
        allowance,
    };
    let all = all_items(contents.agents);
    let cutter = cutter_of(all);
    let Allocation {
        bundles,
        cutters,
        ..
    } = instance.divide_left(
        cutter,
        all,
        all_items(contents.items),
        cuts[cutter as usize - 1],
        nothing_handed_out(),
    );
    let Assessed { worths, grade, .. } = assess(contents, terms, shares, bundles);
    Division {
        grade,
        worths,
        bundles,
        shares,
        cuts,
        cutters,
    }
}

// The division of a sheet. Refused as its shares are: with 4 where the agents lie outside the limits, else
// with 5 where the items do, else with 9 where a share times the agents exceeds the sum of its marks, else with 14 where the growth
// partitions of all items into as many bundles as agents outnumber the allowance.
pub fn divide(contents: Contents, allowance: u32) -> Result<Division, Refusal>
    ensures answered { answer_of result ≡ map_answer stored (answer contents allowance) }
    ensures promised { Promised contents allowance result }
{
    let own = share_each_within(contents, allowance)?;
    Ok(divide_shared(contents, terms_for(contents.agents), allowance, own))
}

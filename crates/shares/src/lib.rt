// The maximin share and the cut of each agent (yard) of a table, or the reason to refuse the table.
#![tactic(auto)]

ghost use Rattle.std.specs.Prelude.{◌≡◌, map, ◌≤◌, IfOk};
ghost use Rattle.sheet.specs.Limits.{greatest_sum, CountsWithin, InUse};
ghost use Rattle.sheet.specs.Answers.{map_answer};
ghost use Rattle.sheet.specs.Refusals.{answer_of};
ghost use Rattle.sheet.specs.Tables.{all_values};
ghost use Rattle.sheet.specs.Contents.{valuations_of};
ghost use Rattle.sheet.specs.Amounts.{SmallAmounts};
ghost use Rattle.growth.specs.Growth.{growths};
ghost use Rattle.cut.specs.Outcome.{cutting_of};
ghost use Rattle.shares.specs.Shares.{shares_covered, sharing, sharing_within};
ghost use Rattle.shares.specs.Stored.{stored};
ghost use Rattle.shares.specs.Known.{SharesIn};
ghost use Rattle.shares.specs.internal.OwnCuts.{own_cut};

use cut::{Figure, Partition, cut};
use sheet::amounts::Amounts;
use sheet::naming::all_items;
use sheet::refusal::Refusal;
use sheet::valuing::value_of;
use sheet::{Contents, Row, Sheet, agents_allowed, items_allowed};

// Each agent's share and its cut of all items, that is the bundle of each item, 0 after the last; blank after the last agent. Arrays side by
// side: the shares go on as one, to the rounds, the grading and the judging.
#[derive(Clone, Copy)]
pub struct Shares {
    pub shares: Amounts,
    pub cuts: [Partition; Sheet::AGENTS],
}

// The share and the cut of one agent.
#[derive(Clone, Copy)]
struct OwnCut {
    share: u64,
    partition: Partition,
}

// The share of an agent with this valuation and its cut of all items of the sheet, in as many bundles as there are agents, with an allowance
// that does not stop the cut.
fn own_cut(contents: Contents, valuation: Row, allowance: u32) -> OwnCut
    requires { InUse contents.agents contents.items × (growths contents.agents contents.items ≤ allowance) }
    ensures own { result ≡ own_cut contents.agents (all_values contents.items valuation) }
    ensures bound { result.share ≤ greatest_sum }
{
    let all = all_items(contents.items);
    let Ok(cutting) = cut(valuation, all, contents.agents, allowance) else {
        unreachable!()
    };
    let Figure::Share(share) = cutting.figure else {
        unreachable!()
    };
    let partition = cutting.partition;
    OwnCut { share, partition }
}

// The share and the cut of each agent: over all items, in as many bundles as there are agents, and with an allowance that stops no cut.
fn own_cuts(contents: Contents, allowance: u32) -> Shares
    requires { InUse contents.agents contents.items × (growths contents.agents contents.items ≤ allowance) }
    ensures each { result ≡ stored (map (cutting_of contents.agents) (valuations_of contents)) }
    ensures bound { SmallAmounts result.shares }
{
    let mut shares = [0; Sheet::AGENTS];
    let mut cuts = [[0; Sheet::ITEMS]; Sheet::AGENTS];
    for i in 0..contents.agents {
        let OwnCut { share, partition } = own_cut(contents, contents.table[i], allowance);
        shares[i] = share;
        cuts[i] = partition;
    }
    Shares { shares, cuts }
}

// The makers' check, refusal 9: whether no agent's share times the number of agents exceeds the sum of its marks.
fn shares_covered(contents: Contents, shares: Amounts) -> bool
    requires { SharesIn contents shares }
    ensures { result ≡ shares_covered contents.agents (valuations_of contents) }
{
    let set = all_items(contents.items);
    for i in 0..contents.agents {
        if contents.agents as u64 * shares[i] > value_of(contents.table[i], set) {
            return false;
        }
    }
    true
}

// The share and the cut of each agent, where the counts are within the limits and the allowance stops no cut. Refused with 9 where the
// makers' check fails.
fn checked_cuts(contents: Contents, allowance: u32) -> Result<Shares, Refusal>
    requires { CountsWithin contents.agents contents.items × (growths contents.agents contents.items ≤ allowance) }
    ensures answer { answer_of result ≡ map_answer stored (sharing contents) }
    ensures bound { IfOk result (λ own. SmallAmounts own.shares) }
{
    let own = own_cuts(contents, allowance);
    if !shares_covered(contents, own.shares) {
        return Err(Refusal::SharesNotCovered);
    }
    Ok(own)
}

// The maximin share and the cut of each agent. Refused with 4 or 5 where the agents or the items lie outside the limits, with 9 where the
// makers' check fails, and with 14 where the growth partitions of all items into as many bundles as agents outnumber the allowance. The
// count for 14 is tried before anything is cut: within the limits 9 is never answered.
pub fn share_each_within(contents: Contents, allowance: u32) -> Result<Shares, Refusal>
    ensures answer { answer_of result ≡ map_answer stored (sharing_within contents allowance) }
    ensures bound { IfOk result (λ own. SmallAmounts own.shares) }
{
    if !agents_allowed(contents.agents) {
        return Err(Refusal::AgentsOutside);
    }
    if !items_allowed(contents.items) {
        return Err(Refusal::ItemsOutside);
    }
    if allowance < growth::count(contents.items, contents.agents) {
        return Err(Refusal::AllowanceTooSmall);
    }
    checked_cuts(contents, allowance)
}

// The maximin share and the cut of each agent, with an allowance that is enough for every table. Refused with 4 or 5 where the agents or
// the items lie outside the limits, and with 9 where the makers' check fails.
pub fn share_each(contents: Contents) -> Result<Shares, Refusal>
    ensures answer { answer_of result ≡ map_answer stored (sharing contents) }
    ensures bound { IfOk result (λ own. SmallAmounts own.shares) }
{
    share_each_within(contents, growth::MOST)
}

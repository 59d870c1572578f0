// Amounts for the agents: shares, totals or values of bundles.
ghost use Rattle.std.specs.Prelude.{◌≡◌, min};
ghost use Rattle.sheet.specs.Limits.{most_agents};
ghost use Rattle.sheet.specs.Amounts.{each_at_most};

use crate::Sheet;

// An amount for each agent.
pub type Amounts = [u64; Sheet::AGENTS];

// Whether each of the first `agents` amounts is at most the one in its place of the others.
pub fn each_at_most(low: Amounts, high: Amounts, agents: usize) -> bool
    ensures { result ≡ each_at_most low high (min agents most_agents) }
{
    (0..agents.min(Sheet::AGENTS)).all(|i| low[i] <= high[i])
}

// By how much a bundle is worth more or less than the part of its maximin share that its agent is promised (the margin).
#![tactic(auto)]

ghost use Rattle.std.specs.Prelude.{◌≡◌, min};
ghost use Rattle.sheet.specs.Limits.{most_agents};
ghost use Rattle.margins.specs.Margins.{limited_margin, margins_stored, none_negative};

use sheet::Sheet;
use sheet::amounts::Amounts;
use terms::Terms;

// A margin for each agent.
pub type Margins = [i64; Sheet::AGENTS];

// The margin of an agent with this worth and share, by the terms; all are cut to their limits.
pub fn margin_of(terms: Terms, worth: u64, share: u64) -> i64
    ensures { result ≡ limited_margin terms worth share }
{
    let held = terms.bottom.min(Sheet::GREATEST_TERM) * worth.min(Sheet::GREATEST_SUM);
    let promised = terms.top.min(Sheet::GREATEST_TERM) * share.min(Sheet::GREATEST_SUM);
    held as i64 - promised as i64
}

// The margin of each agent, by the terms, its worth and its share; 0 after the last agent.
pub fn margins_of(agents: usize, terms: Terms, worths: Amounts, shares: Amounts) -> Margins
    ensures { result ≡ margins_stored agents terms worths shares }
{
    let mut margins = [0; Sheet::AGENTS];
    for i in 0..agents.min(Sheet::AGENTS) {
        margins[i] = margin_of(terms, worths[i], shares[i]);
    }
    margins
}

// Whether no margin of the first `agents` is negative.
pub fn none_negative(margins: Margins, agents: usize) -> bool
    ensures { result ≡ none_negative (min agents most_agents) margins }
{
    (0..agents.min(Sheet::AGENTS)).all(|i| margins[i] >= 0)
}

// Which bundles suit whom: a bundle suits an agent when bottom × value is at least top × the agent's share, so when its margin is not negative.
ghost use Rattle.std.specs.Prelude.{◌≡◌};
ghost use Rattle.settling.specs.Suiting.{set_suits, suits_row, suits_table};

use margins::margin_of;
use serving::Suiting;
use sheet::amounts::Amounts;
use sheet::valuing::value_of;
use sheet::{Row, Sets, Sheet, Table};
use terms::Terms;

// Whether the items of the set suit an agent with this valuation and share, by the terms.
fn set_suits(valuation: Row, share: u64, terms: Terms, set: u16) -> bool
    ensures { result ≡ set_suits terms valuation share set }
{
    margin_of(terms, value_of(valuation, set), share) >= 0
}

// Which of the sets suit an agent with this valuation and share, by the terms.
fn suits_row(valuation: Row, share: u64, terms: Terms, sets: Sets) -> [bool; Sheet::AGENTS]
    ensures { result ≡ suits_row terms valuation share sets }
{
    let mut row = [false; Sheet::AGENTS];
    for i in 0..Sheet::AGENTS {
        row[i] = set_suits(valuation, share, terms, sets[i]);
    }
    row
}

// Which of the sets suit which agent, by the terms.
pub(crate) fn suits_table(table: Table, shares: Amounts, terms: Terms, sets: Sets) -> Suiting
    ensures { result ≡ suits_table terms table shares sets }
{
    let mut suiting = [[false; Sheet::AGENTS]; Sheet::AGENTS];
    for i in 0..Sheet::AGENTS {
        suiting[i] = suits_row(table[i], shares[i], terms, sets);
    }
    suiting
}

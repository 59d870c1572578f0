// The amounts that the tests of the grade compare, for each agent of a table.
#![tactic(auto)]

ghost use Rattle.std.specs.Prelude.{◌≡◌, [], map, ◌≤◌, min};
ghost use Rattle.lists.specs.Lists.{nth};
ghost use Rattle.lists.specs.Sums.{greatest_of};
ghost use Rattle.sheet.specs.Limits.{most_agents, most_items, greatest_sum};
ghost use Rattle.sheet.specs.Sets.{items_of};
ghost use Rattle.sheet.specs.Valuations.{value};
ghost use Rattle.sheet.specs.Tables.{all_values, profile};
ghost use Rattle.sheet.specs.Amounts.{SmallAmounts};
ghost use Rattle.grade_amounts.specs.Compared.{compared};

use sheet::amounts::Amounts;
use sheet::naming::all_items;
use sheet::valuing::value_of;
use sheet::{Contents, Row, Sets, Sheet};

// What the grade goes by besides the shares, for each agent: the value of its own bundle, the greatest value that it sees in any
// bundle, the value of its own bundle times the number of agents, and the value of all items.
// Four arrays and no struct for each agent: the tests hold whole arrays against each other and against the shares, and the own values go on as one.
#[derive(Clone, Copy)]
pub struct Compared {
    pub own: Amounts,
    pub greatest: Amounts,
    pub multiples: Amounts,
    pub totals: Amounts,
}

// The value of a bundle, without the items above `items`, which are not in use.
pub fn value_in_use(valuation: Row, bundle: u16, items: usize) -> u64
    ensures { (result ≡ value (all_values (min items most_items) valuation) (items_of bundle)) × (result ≤ greatest_sum) }
{
    value_of(valuation, bundle % (all_items(items) + 1))
}

// The greatest value that an agent sees in any of the bundles.
fn greatest_in_use(valuation: Row, agents: usize, items: usize, bundles: Sets) -> u64
    requires { agents ≤ most_agents }
    ensures { result ≡ greatest_of (λ j. value (all_values (min items most_items) valuation) (nth [] (map items_of bundles) j)) agents }
{
    let mut most = 0;
    for bundle in &bundles[..agents] {
        most = value_in_use(valuation, *bundle, items).max(most);
    }
    most
}

// What the grade goes by, for each agent; both counts are cut to the limits of a sheet.
pub fn compare(contents: Contents, bundles: Sets) -> Compared
    ensures amounts { result ≡ compared (min contents.agents most_agents) (profile (min contents.agents most_agents) (min contents.items most_items) contents.table) (map items_of bundles) }
    ensures bound { SmallAmounts result.own }
{
    let agents = contents.agents.min(Sheet::AGENTS);
    let all = all_items(contents.items);
    let mut own = [0; Sheet::AGENTS];
    let mut greatest = [0; Sheet::AGENTS];
    let mut multiples = [0; Sheet::AGENTS];
    let mut totals = [0; Sheet::AGENTS];
    for i in 0..agents {
        let value = value_in_use(contents.table[i], bundles[i], contents.items);
        own[i] = value;
        greatest[i] = greatest_in_use(contents.table[i], agents, contents.items, bundles);
        multiples[i] = agents as u64 * value;
        totals[i] = value_of(contents.table[i], all);
    }
    Compared {
        own,
        greatest,
        multiples,
        totals,
    }
}

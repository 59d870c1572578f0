// The terms of a division: the part of its maximin share that each agent is promised.
#![tactic(auto)]

ghost use Rattle.std.specs.Prelude.{◌≡◌, min};
ghost use Rattle.sheet.specs.Limits.{most_agents};
ghost use Rattle.terms.specs.Terms.{terms_for};

use sheet::Sheet;

// "top" and "bottom" of document 01: the fraction of its maximin share that each agent is promised.
#[derive(Clone, Copy)]
pub struct Terms {
    pub top: u64,
    pub bottom: u64,
}

// The terms of document 01 for a number of agents, which is cut to the limit of a sheet; none counts as one.
pub fn terms_for(agents: usize) -> Terms
    ensures { result ≡ terms_for (min agents most_agents) }
{
    let before = agents.min(Sheet::AGENTS).saturating_sub(1);
    let largest_odd = 2 * (before as u64 / 2) + 1;
    Terms {
        top: 2 * largest_odd,
        bottom: 3 * largest_odd - 1,
    }
}

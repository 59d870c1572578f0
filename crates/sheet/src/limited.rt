// Counts of agents and items that the limits of a sheet hold.
ghost use Rattle.std.specs.Prelude.{◌≡◌, ◌≤◌, min};
ghost use Rattle.sheet.specs.Limits.{most_agents, most_items};

use crate::Sheet;

// Counts that lie within the limits of a sheet.
#[derive(Clone, Copy)]
pub struct Limited {
    pub agents: usize,
    pub items: usize,
    ghost few: { agents ≤ most_agents },
    ghost few_items: { items ≤ most_items },
}

impl Limited {
    // These counts, cut to the limits.
    pub fn of(agents: usize, items: usize) -> Limited
        ensures agents { result.agents ≡ min agents most_agents }
        ensures items { result.items ≡ min items most_items }
    {
        Limited {
            agents: agents.min(Sheet::AGENTS),
            items: items.min(Sheet::ITEMS),
        }
    }
}

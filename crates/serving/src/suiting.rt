// Which bundles suit an agent, some agent of a list, and none of them.
ghost use Rattle.std.specs.Prelude.{◌≡◌, ◌≤◌};
ghost use Rattle.lists.specs.Lists.{range, Within};
ghost use Rattle.sheet.specs.Limits.{most_agents};
ghost use Rattle.matching.specs.Matching.{wanted, free_bundles};
ghost use Rattle.serving.specs.Serving.{suits_of};

use crate::Suiting;
use sheet::listing::CopyList;

// Whether the bundle suits the agent.
pub(crate) fn is_suited(suiting: Suiting, agent: u8, bundle: u8) -> bool
    requires { (1 ≤ agent) × (agent ≤ most_agents) × (1 ≤ bundle) × (bundle ≤ most_agents) }
    ensures { result ≡ suits_of suiting agent bundle }
{
    suiting[agent as usize - 1][bundle as usize - 1]
}

// Whether the bundle suits one of the agents.
fn is_wanted(suiting: Suiting, agents: &[u8], bundle: u8) -> bool
    requires { Within most_agents agents.now × (1 ≤ bundle) × (bundle ≤ most_agents) }
    ensures { result ≡ wanted (suits_of suiting) agents.now bundle }
{
    agents
        .iter()
        .any(|agent| is_suited(suiting, *agent, bundle))
}

// The bundles of 1 .. bundles that suit none of the agents who wait.
pub(crate) fn free(suiting: Suiting, waiting: &[u8], bundles: usize) -> CopyList<u8>
    requires { Within most_agents waiting.now × (bundles ≤ most_agents) }
    ensures { result ≡ free_bundles (suits_of suiting) waiting.now (range 1 bundles) }
{
    let mut free = CopyList::new();
    for i in 0..bundles {
        let bundle = i as u8 + 1;
        if !is_wanted(suiting, waiting, bundle) {
            free.push(bundle);
        }
    }
    free
}

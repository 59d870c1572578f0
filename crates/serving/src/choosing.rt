// The bundles of the agents served: the first matching of them with the free bundles.
ghost use Rattle.std.specs.Prelude.{◌≡◌, ◌≤◌, length};
ghost use Rattle.lists.specs.Lists.{Within};
ghost use Rattle.sheet.specs.Limits.{most_agents, set_bits};
ghost use Rattle.matching.specs.Matching.{matching};
ghost use Rattle.serving.specs.Serving.{suits_of};
ghost use Rattle.serving.specs.internal.Searching.{PartialMatching, first_matching};

use crate::Suiting;
use crate::suiting::is_suited;
use sheet::listing::CopyList;

// The first matching of the agents that begins with the bundles chosen, and no numbers where there is none, as the definition has it.
fn extend(suiting: Suiting, served: &[u8], free: &[u8], chosen: CopyList<u8>) -> CopyList<u8>
    requires agents { Within most_agents served.now }
    requires bundles { Within most_agents free.now }
    requires room { length served.now ≤ set_bits }
    requires begun { PartialMatching (suits_of suiting) served.now chosen }
    ensures { result ≡ first_matching (suits_of suiting) served.now free.now chosen }
{
    let Some(agent) = served.get(chosen.len()) else {
        return chosen;
    };
    for bundle in free {
        if is_suited(suiting, *agent, *bundle) && !chosen.contains(*bundle) {
            let found = extend(suiting, served, free, chosen.with(*bundle));
            if !found.as_slice().is_empty() {
                return found;
            }
        }
    }
    CopyList::new()
}

// The first matching of the agents served with the free bundles: the bundle of each agent.
pub(crate) fn matched(suiting: Suiting, served: &[u8], free: &[u8]) -> CopyList<u8>
    requires agents { Within most_agents served.now }
    requires bundles { Within most_agents free.now }
    requires room { length served.now ≤ set_bits }
    ensures { result ≡ matching (suits_of suiting) served.now free.now }
{
    extend(suiting, served, free, CopyList::new())
}

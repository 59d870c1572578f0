// The agents left that are not in a list: those who are served are not in the list of those who wait, the others not in that of the cutter.
ghost use Rattle.std.specs.Prelude.{◌≡◌};
ghost use Rattle.matching.specs.Matching.{served_agents};

use sheet::listing::CopyList;

// The agents that are not in the list `waiting`.
pub(crate) fn served(waiting: &[u8], agents: &CopyList<u8>) -> CopyList<u8>
    ensures { result ≡ served_agents waiting.now agents.now }
{
    let mut served = CopyList::new();
    for agent in agents.as_slice() {
        if !waiting.contains(agent) {
            served.push(*agent);
        }
    }
    served
}

// One round of the agents (yards) left: who cuts, who waits, and who is served with which bundle (pile).
#![tactic(auto)]

ghost use Rattle.std.specs.Prelude.{◌≡◌};
ghost use Rattle.matching.specs.Matching.{cutter_of};
ghost use Rattle.serving.specs.Serving.{suits_of, agents_in, serving_of};

use crate::choosing::matched;
use crate::served::served;
use crate::suiting::free;
use crate::waiting::waiting;
use sheet::Sheet;
use sheet::listing::CopyList;
use sheet::naming::{items_of, set_of};

mod choosing;
mod served;
mod suiting;
mod waiting;

// Whether a bundle (place) suits an agent (row).
pub type Suiting = [[bool; Sheet::AGENTS]; Sheet::AGENTS];

// What one round settles: the agents served, their bundles at the same places, and the set of the agents that wait.
#[derive(Clone, Copy)]
pub struct Serving {
    pub served: CopyList<u8>,
    pub chosen: CopyList<u8>,
    pub waiting: u16,
}

// The number of sets of the agents of a sheet.
const AGENT_SETS: u16 = 1 << Sheet::AGENTS;

// The cutter of a round of the agents left, a set of agents in which those above the last agent of a sheet are passed over: the
// lowest-numbered of them, and as in the definition 0 where none is left.
pub fn cutter_of(left: u16) -> u8
    ensures { result ≡ cutter_of (agents_in left) }
{
    let agents = items_of(left % AGENT_SETS);
    agents.as_slice().first().copied().unwrap_or(0)
}

// One round of the agents left, a set of agents as above, with the one of them who cuts: where the cutter is not one of them, each of them
// may wait.
pub fn serve(suiting: Suiting, cutter: u8, left: u16) -> Serving
    ensures { result ≡ serving_of (suits_of suiting) cutter (agents_in left) }
{
    let agents = items_of(left % AGENT_SETS);
    let waiting = waiting(suiting, cutter, &agents);
    let waits = waiting.as_slice();
    let served = served(waits, &agents);
    let free = free(suiting, waits, agents.len());
    Serving {
        chosen: matched(suiting, served.as_slice(), free.as_slice()),
        served,
        waiting: set_of(waits),
    }
}

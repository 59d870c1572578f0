// The agents that wait: the first largest tight set of the agents without the cutter.
ghost use Rattle.std.specs.Prelude.{◌≡◌, ◌≤◌};
ghost use mathlib.Core.List.{Sublistᴰ as Sublist};
ghost use Rattle.lists.specs.Lists.{range, Within};
ghost use Rattle.sheet.specs.Limits.{most_agents};
ghost use Rattle.matching.specs.Matching.{tight, waiting_of};
ghost use Rattle.serving.specs.Serving.{suits_of};
ghost use Rattle.serving.specs.internal.Searching.{Searching, largest_tight};

use crate::Suiting;
use crate::served::served;
use crate::suiting::free;
use sheet::listing::CopyList;

// Whether at most as many of the bundles 1 .. bundles suit some of the agents as there are agents: all other bundles suit none.
fn is_tight(suiting: Suiting, agents: &[u8], bundles: usize) -> bool
    requires { Within most_agents agents.now × (bundles ≤ most_agents) }
    ensures { result ≡ tight (suits_of suiting) (range 1 bundles) agents.now }
{
    bundles <= free(suiting, agents, bundles).len() + agents.len()
}

// The first largest of `best` and the tight sets that have the agents chosen and some of the others.
fn largest(
    suiting: Suiting,
    others: &[u8],
    bundles: usize,
    chosen: CopyList<u8>,
    best: CopyList<u8>,
) -> CopyList<u8>
    requires { Searching others.now bundles chosen }
    ensures { result ≡ largest_tight (suits_of suiting) others.now bundles chosen best }
{
    if chosen.len() + others.len() <= best.len() {
        return best;
    }
    let [agent, rest @ ..] = others else {
        return if is_tight(suiting, chosen.as_slice(), bundles) {
            chosen
        } else {
            best
        };
    };
    let better = largest(suiting, rest, bundles, chosen.with(*agent), best);
    largest(suiting, rest, bundles, chosen, better)
}

// The agents that wait: the cutter does not.
pub(crate) fn waiting(suiting: Suiting, cutter: u8, agents: &CopyList<u8>) -> CopyList<u8>
    requires { Sublist agents.now (range 1 most_agents) }
    ensures { result ≡ waiting_of (suits_of suiting) cutter agents.now }
{
    let others = served(&[cutter], agents);
    largest(
        suiting,
        others.as_slice(),
        agents.len(),
        CopyList::new(),
        CopyList::new(),
    )
}

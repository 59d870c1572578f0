// The rounds one after the other: each hands out bundles, and the agents that wait divide what is left by the same steps.
ghost use Rattle.std.specs.Prelude.{◌≡◌, ◌≤◌, ◌<◌, length};
ghost use mathlib.Core.List.{Memᴰ as Mem};
ghost use Rattle.lists.specs.Lists.{Within};
ghost use Rattle.sheet.specs.Limits.{most_agents};
ghost use Rattle.sheet.specs.Sets.{items_of};
ghost use Rattle.cut.specs.Outcome.{placed};
ghost use Rattle.matching.specs.Matching.{cutter_of};
ghost use Rattle.serving.specs.Serving.{agents_in};
ghost use Rattle.division.specs.internal.Allocation.{empty_allocation, stored, with_round, allotted_all};
ghost use Rattle.division.specs.internal.Left.{instance_from, cut_left, Cuttable, EnoughFor, Ready};

use cut::{Partition, cut};
use serving::cutter_of;
use settling::settle_round;
use sheet::amounts::Amounts;
use sheet::naming::items_of;
use sheet::{Contents, Sets, Sheet};
use terms::Terms;

// What has been handed out: the set of items of each agent, the cutter of each round in turn (0 after the last), the number of rounds. The
// cutters are no short list, since a division stores them in six places (`divide_table`).
#[derive(Clone, Copy)]
pub struct Allocation {
    pub bundles: Sets,
    pub cutters: [u8; Sheet::AGENTS],
    pub rounds: usize,
}

// Before the first round nothing is handed out.
pub(crate) fn nothing_handed_out() -> Allocation
    ensures { result ≡ empty_allocation }
{
    Allocation {
        bundles: [0; Sheet::AGENTS],
        cutters: [0; Sheet::AGENTS],
        rounds: 0,
    }
}

// The sets with those of the agents served put in their places.
fn store(places: Sets, served: &[u8], sets: Sets) -> Sets
    requires { Within most_agents served.now × (length served.now ≤ most_agents) }
    ensures { result ≡ stored served.now sets places }
{
    let mut bundles = places;
    for (agent, set) in served.iter().zip(&sets) {
        bundles[*agent as usize - 1] = *set;
    }
    bundles
}

// One round more: its cutter, and the sets of the agents served.
fn hand_out(allocation: Allocation, cutter: u8, served: &[u8], sets: Sets) -> Allocation
    requires { Within most_agents served.now × (length served.now ≤ most_agents) × (allocation.rounds < most_agents) }
    ensures { result ≡ with_round cutter served.now sets allocation }
{
    let mut cutters = allocation.cutters;
    cutters[allocation.rounds] = cutter;
    Allocation {
        bundles: store(allocation.bundles, served, sets),
        cutters,
        rounds: allocation.rounds + 1,
    }
}

// What stays the same from round to round: the sheet with the shares of its agents and the terms, and the allowance of each cut.
#[derive(Clone, Copy)]
pub(crate) struct Instance {
    pub(crate) contents: Contents,
    pub(crate) shares: Amounts,
    pub(crate) terms: Terms,
    pub(crate) allowance: u32,
}

impl Instance {
    // The cutter's partition of the items left into as many bundles as there are agents left, with an allowance that does not stop the cut.
    fn cut_left(&self, cutter: u8, left: u16, set: u16) -> Partition
        requires { Mem cutter (agents_in left) × Cuttable left set × EnoughFor self.now.allowance left set }
        ensures { result ≡ placed (cut_left self.now.contents.table cutter (agents_in left) (items_of set)) }
    {
        let row = self.contents.table[cutter as usize - 1];
        let agents = items_of(left);
        let Ok(cutting) = cut(row, set, agents.len(), self.allowance) else {
            unreachable!()
        };
        cutting.partition
    }

    // The allocation once the agents left have divided the items left: one round, and the agents that wait divide what it leaves, with the
    // same allowance, by the terms. `cutter` cuts this round, and `partition` is its cut of the items left.
    pub(crate) fn divide_left(
        &self,
        cutter: u8,
        left: u16,
        set: u16,
        partition: Partition,
        allocation: Allocation,
    ) -> Allocation
        requires { Ready self.now.terms self.now.shares self.now.allowance left set allocation × (cutter ≡ cutter_of (agents_in left)) × (partition ≡ placed (cut_left self.now.contents.table cutter (agents_in left) (items_of set))) }
        ensures { result ≡ allotted_all (instance_from self.now.terms self.now.contents.table self.now.shares) (agents_in left) (items_of set) allocation }
    {
        let round = settle_round(
            self.contents.table,
            self.shares,
            self.terms,
            cutter,
            left,
            set,
            partition,
        );
        let given = hand_out(allocation, cutter, round.served.as_slice(), round.sets);
        if round.waiting == 0 {
            return given;
        }
        let next_cutter = cutter_of(round.waiting);
        let next = self.cut_left(next_cutter, round.waiting, round.left);
        self.divide_left(next_cutter, round.waiting, round.left, next, given)
    }
}

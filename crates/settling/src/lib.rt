// One round of a division: who waits, who is served with what, and what is left.
#![tactic(auto)]

ghost use Rattle.std.specs.Prelude.{◌≡◌};
ghost use Rattle.settling.specs.Settling.{settled_by};

use crate::handing::{chosen_sets, left_of};
use crate::suiting::suits_table;
use bundling::bundle_sets;
use cut::Partition;
use serving::serve;
use sheet::amounts::Amounts;
use sheet::listing::CopyList;
use sheet::{Sets, Table};
use terms::Terms;

mod handing;
mod suiting;

// What one round settles: the agents served with the sets of their bundles at the same places, the set of the agents that wait, and the
// set of the items left.
#[derive(Clone, Copy)]
pub struct Settled {
    pub served: CopyList<u8>,
    pub sets: Sets,
    pub waiting: u16,
    pub left: u16,
}

// One round of the agents left and the items left, by the terms; `cutter` is one of the agents left, and `partition` its cut of the items
// left. The terms and the shares are cut to their limits.
pub fn settle_round(
    table: Table,
    shares: Amounts,
    terms: Terms,
    cutter: u8,
    left: u16,
    set: u16,
    partition: Partition,
) -> Settled
    ensures { result ≡ settled_by terms table shares cutter left set partition }
{
    let sets = bundle_sets(set, partition);
    let suiting = suits_table(table, shares, terms, sets);
    let round = serve(suiting, cutter, left);
    let handed = chosen_sets(sets, round.chosen.as_slice());
    Settled {
        served: round.served,
        sets: handed,
        waiting: round.waiting,
        left: left_of(set, handed),
    }
}

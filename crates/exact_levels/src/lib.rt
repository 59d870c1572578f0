// How many of the first agents (yards) can be served from each set of items (pieces), agent after agent.
#![tactic(auto)]

ghost use Rattle.std.specs.Prelude.{◌≡◌, ◌<◌, min};
ghost use Rattle.sheet.specs.Limits.{most_agents, most_items};
ghost use Rattle.exact_levels.specs.Levels.{levels_of};
ghost use Rattle.exact_levels.specs.internal.Keeping.{level_with, CanRaise, Raised};

use crate::keeping::{SERVED, keep_most};
use sheet::amounts::Amounts;
use sheet::naming::all_items;
use sheet::{Contents, Row, Sheet};

mod keeping;

// The number of sets of the items of a sheet.
pub const SETS: usize = 1 << Sheet::ITEMS;

// For each set of items, how many of the first agents can be served from it.
pub type Levels = [u8; SETS];

// The level of a set of which an agent can keep so much at the most, behind those before.
fn level_with(level: u8, before: u8, share: u64, most: u64) -> u8
    requires { before < most_agents }
    ensures { result ≡ level_with level before share most }
{
    match most.checked_sub(SERVED) {
        Some(kept) if share <= kept => before + 1,
        _ => level,
    }
}

// One agent more: it can be served from a set behind those before where the most that it can keep of the set is worth its share.
fn raise(valuation: Row, share: u64, levels: &mut Levels, before: u8, items: usize, sets: usize)
    requires { CanRaise levels.old before items sets }
    ensures { Raised valuation share levels.old before items sets levels.new }
{
    let kept = keep_most(valuation, levels, before, items, sets);
    for set in 0..sets {
        levels[set] = level_with(levels[set], before, share, kept[set]);
    }
}

// How many of the first agents can be served from each set of the items; both counts are cut to the limits of a sheet.
pub fn rank(contents: Contents, shares: Amounts) -> Levels
    ensures { result ≡ levels_of contents.table shares (min contents.agents most_agents) (min contents.items most_items) }
{
    let last = contents.agents.min(Sheet::AGENTS);
    let counted = contents.items.min(Sheet::ITEMS);
    let all = all_items(contents.items);
    let sets = all as usize + 1;
    let mut levels: Levels = [0; SETS];
    for i in 0..last {
        raise(
            contents.table[i],
            shares[i],
            &mut levels,
            i as u8,
            counted,
            sets,
        );
    }
    levels
}

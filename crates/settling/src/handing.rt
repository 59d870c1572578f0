// What one round hands out: the sets of the bundles chosen, and what is left.
ghost use Rattle.std.specs.Prelude.{◌≡◌, map, ◌-◌, ◌≤◌, length};
ghost use Rattle.lists.specs.Lists.{nth, padded, Within};
ghost use Rattle.lists.specs.Sums.{total};
ghost use Rattle.sheet.specs.Limits.{most_agents};

use sheet::{Sets, Sheet};

// The sets of the bundles chosen, 0 after the last.
pub(crate) fn chosen_sets(sets: Sets, chosen: &[u8]) -> Sets
    requires { Within most_agents chosen.now × (length chosen.now ≤ most_agents) }
    ensures { result ≡ padded most_agents 0 (map (nth 0 sets) chosen.now) }
{
    let mut handed = [0; Sheet::AGENTS];
    for (i, bundle) in chosen.iter().enumerate() {
        handed[i] = sets[*bundle as usize - 1];
    }
    handed
}

// The set without the sets that are handed out, which are parts of it; 0 where they sum to more.
pub(crate) fn left_of(set: u16, handed: Sets) -> u16
    ensures { result ≡ set - total handed }
{
    handed
        .iter()
        .fold(set, |left, taken| left.saturating_sub(*taken))
}

// Whether the items that a division names, in its bundles and in the cuts that it states, are those of the sheet, and each in just one bundle.
#![tactic(auto)]

ghost use Rattle.std.specs.Prelude.{◌≡◌, Bool, List, ℕ, map, ◌≤◌, min, take, length};
ghost use Rattle.std.specs.Fn.{FnReturnsAt};
ghost use Rattle.sheet.specs.Limits.{most_agents, most_items};
ghost use Rattle.sheet.specs.Sets.{items_of};
ghost use Rattle.stated_truth.specs.Truth.{of_sheet, each_in_one};
ghost use Rattle.stated_truth.specs.Lines.{sets_and_cuts};

use crate::in_one::each_in_one;
use crate::of_sheet::bundles_of_sheet;
use division_reading::StatedLine;
use sheet::{Sets, Sheet};

mod in_one;
mod of_sheet;

// The sets of the agents.
fn sets_of(sets: &Sets, agents: usize) -> &[u16]
    requires { agents ≤ most_agents }
    ensures first { result.now ≡ take agents sets.now }
    ensures each { length result.now ≡ agents }
{
    &sets[..agents]
}

// Whether the first `agents` bundles pass a test, and those of the cut in each of the first lines.
fn all_pass<F: Fn(&[u16]) -> bool>(
    passes: F,
    bundles: Sets,
    lines: [StatedLine; Sheet::AGENTS],
    agents: usize,
) -> bool
    requires few { agents ≤ most_agents }
    requires callable { F.IsAlwaysCallable passes }
    ensures { (test : List (List ℕ) → Bool)
        → ((sets : List ℕ) (b : Bool) → length sets ≡ agents → FnReturnsAt F.Fn passes sets b → b ≡ test (map items_of sets))
        → result ≡ sets_and_cuts agents test bundles lines }
{
    if !passes(sets_of(&bundles, agents)) {
        return false;
    }
    for line in &lines[..agents] {
        if !passes(sets_of(&line.cut, agents)) {
            return false;
        }
    }
    true
}

// Whether the bundles name items of the sheet only, and those of each cut; both counts are cut to the limits of a sheet.
pub fn all_of_sheet(
    bundles: Sets,
    lines: [StatedLine; Sheet::AGENTS],
    agents: usize,
    items: usize,
) -> bool
    ensures { result ≡ sets_and_cuts (min agents most_agents) (of_sheet (min agents most_agents) (min items most_items)) bundles lines }
{
    let counted = items.min(Sheet::ITEMS);
    all_pass(
        |sets| bundles_of_sheet(sets, counted),
        bundles,
        lines,
        agents.min(Sheet::AGENTS),
    )
}

// Whether each item of the sheet is in just one of the bundles, and in one of those of each cut; both counts are cut to the limits of a sheet.
pub fn all_in_one(
    bundles: Sets,
    lines: [StatedLine; Sheet::AGENTS],
    agents: usize,
    items: usize,
) -> bool
    ensures { result ≡ sets_and_cuts (min agents most_agents) (each_in_one (min items most_items)) bundles lines }
{
    let counted = items.min(Sheet::ITEMS);
    all_pass(
        |sets| each_in_one(sets, counted),
        bundles,
        lines,
        agents.min(Sheet::AGENTS),
    )
}

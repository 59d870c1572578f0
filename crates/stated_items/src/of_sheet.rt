// Whether several bundles name items of the sheet only.
ghost use Rattle.std.specs.Prelude.{◌≡◌, map, ◌≤◌, length};
ghost use Rattle.sheet.specs.Limits.{most_items};
ghost use Rattle.sheet.specs.Sets.{items_of};
ghost use Rattle.stated_truth.specs.Truth.{of_sheet};

use sheet::naming::all_items;

// Whether none of the sets names an item above `items`.
pub(crate) fn bundles_of_sheet(sets: &[u16], items: usize) -> bool
    requires { items ≤ most_items }
    ensures { result ≡ of_sheet (length sets.now) items (map items_of sets.now) }
{
    let all = all_items(items);
    sets.iter().all(|set| *set <= all)
}

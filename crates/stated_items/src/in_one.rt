// Whether each item is in just one of several bundles.
ghost use Rattle.std.specs.Prelude.{◌≡◌, map, ◌≤◌, ◌/◌, ◌%◌, eqb};
ghost use Rattle.lists.specs.Lists.{count};
ghost use Rattle.sheet.specs.Limits.{most_items};
ghost use Rattle.sheet.specs.Sets.{items_of};
ghost use Rattle.stated_truth.specs.Truth.{each_in_one};

// How many of the sets have a bit: that of item k is 2 ^ (k - 1).
fn naming(sets: &[u16], bit: u16) -> usize
    requires { 1 ≤ bit }
    ensures { result ≡ count (λ set. eqb (set / bit % 2) 1) sets.now }
{
    sets.iter().filter(|set| **set / bit % 2 == 1).count()
}

// Whether each item from 1 to `items` is in just one of the sets.
pub(crate) fn each_in_one(sets: &[u16], items: usize) -> bool
    requires { items ≤ most_items }
    ensures { result ≡ each_in_one items (map items_of sets.now) }
{
    (0..items).all(|i| naming(sets, 1 << i) == 1)
}

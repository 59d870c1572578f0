// Parts of a set.
ghost use Rattle.std.specs.Prelude.{◌≡◌};
ghost use Rattle.exact_levels.specs.Parts.{is_part};

// Whether the second set names all items of the first.
pub(crate) fn is_part(part: u16, set: u16) -> bool
    ensures { result ≡ is_part part set }
{
    part & set == part
}

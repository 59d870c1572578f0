// Short lists that can be copied: of items, agents or bundles, or of the values of items.
ghost use Rattle.std.specs.Prelude.{◌≡◌, ◌≤◌, List, [], ◌∷◌, ◌++◌, length, take, min, ⊤};
ghost use Rattle.lists.specs.Lists.{elem};
ghost use Rattle.sheet.specs.Limits.{set_bits};

use crate::Sheet;
pub use crate::short_list::ShortList;
use std::alloc::AllocError;
use std::marker::Model;

// An entry of a short list, with the one that stands in the places behind the last.
pub trait Entry: Copy {
    ghost BLANK: { Self };

    const BLANK: Self;
}

impl Entry for u8 {
    ghost BLANK = { 0 };

    const BLANK: u8 = 0;
}

impl Entry for u64 {
    ghost BLANK = { 0 };

    const BLANK: u64 = 0;
}

// A list of at most as many entries as a set can name, which can be copied. The library's ArrayVec has no copy that cannot fail.
#[derive(Copy, Drop)]
pub struct CopyList<T: Entry> {
    places: [T; Sheet::SET_BITS],
    len: usize,
}

impl<T: Entry> Model for CopyList<T> {
    ghost use Rattle.std.specs.Prelude.{◌≡◌, ◌≤◌, List, take, length};
    ghost use Rattle.std.proofs.Common.{sym};
    ghost use Rattle.lists.specs.Lists.{padded};
    ghost use Rattle.lists.proofs.places.Padding.{length-padded-taken};
    ghost use Rattle.sheet.specs.Limits.{set_bits};

    ghost Value = { List T };

    ghost view = { λ l. take l.len l.places };

    ghost invariant = { λ l. (l.len ≤ set_bits) × (l.places ≡ padded set_bits T.BLANK (take l.len l.places)) };

    ghost inverse = { λ xs. record { places = padded set_bits T.BLANK xs; len = length xs } };

    ghost inverse_ok = { λ l h i. record {
      places = sym h.1 i;
      len = length-padded-taken set_bits T.BLANK l.len l.places h.0 h.1 i;
    } };
}

// Its bounds give a derive no copy of an entry.
impl<T: Entry> Clone for CopyList<T> {
    ghost is_clone = { λ l r. r ≡ l };

    ghost is_infallible = { λ _. ⊤ };

    fn clone(&self) -> Result<Self, AllocError> {
        Ok(*self)
    }
}

impl<T: Entry> CopyList<T> {
    // The list with no entry.
    pub fn new() -> Self
        ensures { result ≡ [] }
    {
        CopyList {
            places: [T::BLANK; Sheet::SET_BITS],
            len: 0,
        }
    }

    // The first `count` of sixteen places, and all of them where the count is greater.
    pub fn of(places: [T; Sheet::SET_BITS], count: usize) -> Self
        ensures { result ≡ take (min count set_bits) places }
    {
        let mut list = CopyList::new();
        for entry in &places[..count.min(Sheet::SET_BITS)] {
            list.push(*entry);
        }
        list
    }

    // The entries.
    pub fn as_slice(&self) -> &[T]
        ensures same { result.now ≡ self.now }
        ensures few { length result.now ≤ set_bits }
    {
        &self.places[..self.len]
    }

    // The number of entries.
    pub fn len(&self) -> usize
        ensures count { result ≡ length self.now }
        ensures few { length self.now ≤ set_bits }
    {
        self.as_slice().len()
    }

    // One entry more at the end, where there is room.
    pub fn push(&mut self, entry: T)
        ensures { self.new ≡ take set_bits (self.old ++ entry ∷ []) }
    {
        if self.len < Sheet::SET_BITS {
            self.places[self.len] = entry;
            self.len += 1;
        }
    }

    // The list with one entry more at the end, where there is room.
    pub fn with(&self, entry: T) -> Self
        ensures { result ≡ take set_bits (self.now ++ entry ∷ []) }
    {
        let mut longer = *self;
        longer.push(entry);
        longer
    }
}

// Whether the number stands in one of sixteen places.
pub fn contains(numbers: [u8; Sheet::SET_BITS], number: u8) -> bool
    ensures { result ≡ elem number numbers }
{
    numbers.contains(&number)
}

impl CopyList<u8> {
    // Whether the number stands in the list.
    pub fn contains(&self, number: u8) -> bool
        ensures { result ≡ elem number self.now }
    {
        self.as_slice().contains(&number)
    }
}

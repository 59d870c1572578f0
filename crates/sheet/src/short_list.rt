// Short lists of entries of any type that can be copied; the list itself cannot be.
ghost use Rattle.std.specs.Prelude.{◌≡◌, ◌≤◌, List, [], ◌∷◌, ◌++◌, length, take};
ghost use Rattle.lists.specs.Lists.{elem};
ghost use Rattle.sheet.specs.Limits.{set_bits};

use crate::Sheet;
use std::marker::Model;

// A list of at most as many entries as a set can name.
#[derive(Drop)]
pub struct ShortList<T: Copy> {
    places: [T; Sheet::SET_BITS],
    len: usize,
}

impl<T: Copy> Model for ShortList<T> {
    ghost Value = { List T };

    ghost view = { λ l. take l.len l.places };

    ghost invariant = { λ l. l.len ≤ set_bits };
}

impl<T: Copy + Default> ShortList<T> {
    // The list with no entry.
    pub fn new() -> Self
        ensures { result ≡ [] }
    {
        ShortList {
            places: [T::default(); Sheet::SET_BITS],
            len: 0,
        }
    }
}

impl<T: Copy> ShortList<T> {
    // The entries.
    pub fn as_slice(&self) -> &[T]
        ensures same { result.now ≡ self.now }
        ensures few { length result.now ≤ set_bits }
    {
        &self.places[..self.len]
    }

    // The number of entries.
    pub fn len(&self) -> usize
        ensures count { result ≡ length self.now }
        ensures few { length self.now ≤ set_bits }
    {
        self.as_slice().len()
    }

    // One entry more at the end, where there is room.
    pub fn push(&mut self, entry: T)
        ensures { self.new ≡ take set_bits (self.old ++ entry ∷ []) }
    {
        if self.len < Sheet::SET_BITS {
            self.places[self.len] = entry;
            self.len += 1;
        }
    }

    // The list with one entry more at the end, where there is room.
    pub fn with(&self, entry: T) -> Self
        ensures { result ≡ take set_bits (self.now ++ entry ∷ []) }
    {
        let mut longer = ShortList {
            places: self.places,
            len: self.len,
        };
        longer.push(entry);
        longer
    }
}

impl ShortList<u8> {
    // Whether the number stands in the list.
    pub fn contains(&self, number: u8) -> bool
        ensures { result ≡ elem number self.now }
    {
        self.as_slice().contains(&number)
    }
}

#[cfg(test)]
mod tests {
    use super::*;

    // Seventeen numbers above 255, of which the list takes sixteen.
    #[test]
    fn takes_sixteen_entries(rt: HostRuntime) {
        let mut list = ShortList::<u32>::new();
        assert_eq!(rt; list.len(), 0);
        for n in 300..317u32 {
            list.push(n);
        }
        assert_eq!(rt; list.len(), 16);
        assert_eq!(rt; list.with(317).len(), 16);
        for (i, n) in list.as_slice().iter().enumerate() {
            assert_eq!(rt; *n, 300 + i as u32);
        }
    }

    // A list of one number has no other.
    #[test]
    fn contains_its_entries(rt: HostRuntime) {
        let list = ShortList::<u8>::new().with(5);
        assert!(rt; list.contains(5));
        assert!(rt; !list.contains(0));
        assert_eq!(rt; list.as_slice()[0], 5);
    }
}

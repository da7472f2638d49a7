// Putting items into a list, and reading them.
ghost use Rattle.std.specs.Prelude.{◌≡◌, [], length};
ghost use Rattle.fixed_list.specs.Lists.{listed, Pushed};

use crate::list::FixedList;

// The list is full.
#[derive(Clone, Copy, Debug, PartialEq, Eq)]
pub struct ListFull;

impl<T: Copy + Default, const N: usize> FixedList<T, N> {
    // The list with nothing in it.
    pub fn new() -> FixedList<T, N>
        ensures { listed result ≡ [] }
    {
        FixedList {
            places: [T::default(); N],
            len: 0,
        }
    }
}

impl<T: Copy, const N: usize> FixedList<T, N> {
    pub fn len(&self) -> usize
        ensures { result ≡ length (listed self.now) }
    {
        self.as_slice().len()
    }

    // The items, in the order in which they were put in.
    pub fn as_slice(&self) -> &[T]
        ensures { result.now ≡ listed self.now }
    {
        &self.places[..self.len]
    }

    // Puts `item` behind the others; refused, and nothing changed, where there are `N` already.
    pub fn push(&mut self, item: T) -> Result<(), ListFull>
        ensures { Pushed N item (listed self.old) result (listed self.new) }
    {
        if self.len >= N {
            return Err(ListFull);
        }
        self.places[self.len] = item;
        self.len += 1;
        Ok(())
    }
}

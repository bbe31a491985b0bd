// What a list is made of, and what it gives. In a file of its own, since the definition of its items names the struct.
ghost use Rattle.std.specs.Prelude.{◌≡◌, ◌<◌, ◌≤◌, [], ◌∷◌, ◌++◌, length};
ghost use Rattle.lists.specs.Lists.{items};

use crate::list::List;
use arrayvec::ArrayVec;
use std::ops::DerefSlice;

impl<T: Copy + Default, const CAP: usize> List<T, CAP> {
    /// A list of nothing.
    pub fn new() -> List<T, CAP>
        ensures { items result ≡ [] }
    {
        List {
            room: [T::default(); CAP],
            count: 0,
        }
    }
}

impl<T: Copy, const CAP: usize> List<T, CAP> {
    /// Adds an item after the others.
    pub fn push(&mut self, item: T)
        // A list knows its count, but not what else its caller will add.
        requires { length (items self.old) < CAP }
        ensures { items self.new ≡ items self.old ++ item ∷ [] }
    {
        self.room[self.count] = item;
        self.count += 1;
    }

    /// The items, in order.
    pub fn as_slice(&self) -> &[T]
        ensures value { result.now ≡ items self.now }
        ensures fits { length result.now ≤ CAP }
    {
        &self.room[..self.count]
    }
}

impl<T: Copy, const CAP: usize> DerefSlice for List<T, CAP> {
    type Elem = T;

    ghost deref_gives = { λ l xs. (xs ≡ items l) × (length xs ≤ CAP) };

    fn deref(&self) -> &[T] {
        self.as_slice()
    }
}

impl<T: Copy + Default, const CAP: usize> From<&ArrayVec<T, CAP>> for List<T, CAP> {
    ghost from_gives = { λ v l. items l ≡ v.now.items };

    fn from(list: &ArrayVec<T, CAP>) -> List<T, CAP> {
        let count = list.len();
        let mut room = [T::default(); CAP];
        room[..count].copy_from_slice(list.as_slice());
        List { room, count }
    }
}

// A list of fixed room.
ghost use Rattle.std.specs.Prelude.{⊤, ◌≡◌, ◌≤◌};

use std::alloc::AllocError;

/// A list of at most `CAP` items, which lie in the value itself, so that it is copied as they are.
#[derive(Copy)]
pub struct List<T, const CAP: usize> {
    pub(crate) room: [T; CAP],
    pub(crate) count: usize,
    pub(crate) ghost within: { count ≤ CAP },
}

impl<T: Copy, const CAP: usize> Clone for List<T, CAP> {
    ghost is_clone = { λ l m. m ≡ l };

    ghost is_infallible = { λ _. ⊤ };

    fn clone(&self) -> Result<List<T, CAP>, AllocError> {
        Ok(*self)
    }
}

// Rows of elements, in the value itself.
ghost use Rattle.std.specs.Prelude.{◌≡◌, ◌≤◌, length, ⊤};

use std::alloc::AllocError;

// At most N elements: the first `len` of the room. No `Vec`, since a plan is copied and libraries have no heap.
#[derive(Copy)]
pub struct Row<T: Copy, const N: usize> {
    pub(crate) room: [T; N],
    pub(crate) len: usize,
    ghost full: { length room ≡ N },
    ghost fits: { len ≤ N },
}

impl<T: Copy, const N: usize> Clone for Row<T, N> {
    ghost is_clone = { λ x y. y ≡ x };

    ghost is_infallible = { λ _. ⊤ };

    fn clone(&self) -> Result<Self, AllocError> {
        Ok(*self)
    }
}

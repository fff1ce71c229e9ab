// A small stack in an array. What it means is the list of its items, first pushed first (`stacked`).
ghost use Rattle.std.specs.Prelude.{◌≡◌, ⊤, ◌≤◌};

use std::alloc::AllocError;

// An array with a length and no `Vec`, since nothing here takes memory from the heap. The items beyond `len` are filler or
// popped, and mean nothing. A ghost field keeps the length in bounds, and no `Model` shows the list: a view that forgets what
// lies beyond it would cost `Copy`.
#[derive(Drop)]
pub struct Stack<T, const N: usize> {
    pub(crate) items: [T; N],
    pub(crate) len: usize,
    ghost within: { len ≤ N },
}

impl<T: Copy, const N: usize> Copy for Stack<T, N> {}

// By hand: a derive does not go over a ghost field.
impl<T: Copy, const N: usize> Clone for Stack<T, N> {
    ghost is_clone = { λ s r. r ≡ s };

    ghost is_infallible = { λ _. ⊤ };

    fn clone(&self) -> Result<Stack<T, N>, AllocError> {
        Ok(*self)
    }
}

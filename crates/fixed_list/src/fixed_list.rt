// A list in an array: the first items count, and what stands behind them has no meaning.
ghost use Rattle.std.specs.Prelude.{◌≡◌, ⊤};

use std::alloc::AllocError;

// The items of a list of at most `N`. A count above `N` counts them all.
// No ghost fields: no function that holds a `&mut` beside a struct with one in a type argument is proved.
#[derive(Copy, Debug)]
pub struct FixedList<T, const N: usize> {
    pub(crate) items: [T; N],
    pub(crate) count: usize,
}

// A copy is a clone. By hand: a derive says it of each item's own clone alone.
impl<T: Copy, const N: usize> Clone for FixedList<T, N> {
    ghost is_clone = { λ list copy. copy ≡ list };

    ghost is_infallible = { λ _. ⊤ };

    fn clone(&self) -> Result<FixedList<T, N>, AllocError> {
        Ok(*self)
    }
}

// A list in fixed memory.
ghost use Rattle.std.specs.Prelude.{◌≡◌, ◌≤◌};

use std::alloc::AllocError;

pub mod methods;

// The first `len` of `places`; what stands behind them means nothing.
pub struct FixedList<T, const N: usize> {
    places: [T; N],
    len: usize,
    ghost room: { len ≤ N },
}

// By hand, since no derive copies a struct with a type parameter and a ghost field.
impl<T: Copy, const N: usize> Clone for FixedList<T, N> {
    ghost is_clone = { λ x y. y ≡ x };

    ghost is_infallible = { λ _. Unit {0} };

    fn clone(&self) -> Result<FixedList<T, N>, AllocError> {
        Ok(*self)
    }
}

impl<T: Copy, const N: usize> Copy for FixedList<T, N> {}

//! A row of at most `N` values.
ghost use Rattle.std.specs.Prelude.{◌≡◌, ◌≤◌, length};

use std::alloc::AllocError;

pub mod calls;

/// At most `N` values, in order. Nothing of it lies on the heap.
// Marks are copied at each branch, which no vector of the kit without heap can be: so it is a type of its own.
pub struct Row<T: Copy, const N: usize> {
    len: usize,
    items: [T; N],
    ghost fits: { len ≤ N },
    ghost whole: { length items ≡ N },
}

// By hand: the derive is refused for a generic struct with ghost fields.
impl<T: Copy, const N: usize> Clone for Row<T, N> {
    ghost is_clone = { λ x y. x ≡ y };

    ghost is_infallible = { λ _. Unit {0} };

    fn clone(&self) -> Result<Self, AllocError> {
        Ok(*self)
    }
}

impl<T: Copy, const N: usize> Copy for Row<T, N> {}

/// There is no room for one value more.
#[derive(Debug, Clone, Copy, PartialEq, Eq)]
pub struct Full;

//! The kinds of stores.

ghost use Rattle.std.specs.Prelude.{ℕ};

/// A kind of store.
// A type of its own, and no constant of `Store`: an impl with a lifetime parameter cannot prove what its constant is.
pub trait Kind {
    /// The number of the kind, which each denial carries.
    // A number and no enum, as in a denial.
    const KIND: u8;

    ghost KIND: { ℕ };
}

/// The kind of that number.
pub struct KindOf<const K: u8>;

impl<const K: u8> Kind for KindOf<K> {
    const KIND: u8 = K;

    ghost KIND = { K };
}

//! Why a line of a script is not done.
use std::fmt;

/// Why a line of a script is not done. It then changes nothing.
#[derive(Debug, Clone, Copy, PartialEq, Eq)]
pub(crate) enum Refusal {
    NotUnderstood,
    /// A store with splits in the halves of a half.
    TooDeep,
    /// A store over more than [`crate::shapes::MOST`] bytes, records, heads or links.
    TooLarge,
    /// A call before the first store.
    NoStore,
    /// A call on a store that a machine has.
    Taken,
}

impl fmt::Display for Refusal {
    fn fmt<W: fmt::Write>(&self, f: &mut fmt::Formatter<W>) -> fmt::Result {
        write!(f, "refused: ")?;
        f.write_str(match self {
            Refusal::NotUnderstood => "not understood",
            Refusal::TooDeep => "nested too deep",
            Refusal::TooLarge => "too large",
            Refusal::NoStore => "no store",
            Refusal::Taken => "the machine has the store",
        })
    }
}

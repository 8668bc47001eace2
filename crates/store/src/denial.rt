//! Questions that a store asks, and what its calls answer.

ghost use Rattle.std.specs.Prelude.{◌≡◌};
ghost use Rattle.store.specs.Questions.{number};

/// What a store asks before it does as told. The first question answered by no is the cause of a denial.
#[derive(Debug, Clone, Copy, PartialEq, Eq)]
pub enum Question {
    /// Is the name not alive?
    Unused = 60,
    /// Is the size at most the largest?
    Fits = 61,
    /// Is used plus need at most the capacity?
    Room = 62,
    /// Is the name alive?
    Alive = 63,
    /// Is the offset below the size?
    Inside = 64,
}

impl Question {
    /// The number that stands for the question in listings of denials.
    pub fn number(self) -> u8
        ensures { result ≡ number self }
    {
        self as u8
    }
}

/// The question that was answered by no, and the number of the store's kind.
// A number and no enum: a store written elsewhere has a kind of its own.
#[derive(Debug, Clone, Copy, PartialEq, Eq)]
pub struct Denial {
    pub question: Question,
    pub kind: u8,
}

/// What a granted hand tells. It is a type of its own, so that a later version can tell more.
#[derive(Debug, Clone, Copy, PartialEq, Eq)]
pub struct Handed;

//! Why a call is denied.
ghost use Rattle.std.specs.Prelude.{◌≡◌};
ghost use Rattle.rules.specs.Numbers.{question_number, refusal_number};

use reader::faults::Fault;

/// What a machine asks before it does as told. The first question answered no is why a call is denied.
#[derive(Debug, Clone, Copy, PartialEq, Eq)]
pub enum Question {
    /// Is a program loaded?
    Loaded = 1,
    /// Is none loaded?
    NoneLoaded = 2,
    /// Is the name limit at least 1?
    SomeNames = 3,
    /// Is nothing of the store in use?
    StoreUnused = 4,
    /// Is the thread between 1 and the thread count?
    ThreadExists = 5,
    /// Is the length at most the largest size?
    Fits = 6,
    /// Does `receive` hold fewer than 16 names?
    ReceiveFree = 7,
    /// Is the network's count below the name limit?
    NameLeft = 8,
    /// Has the store room for the packet?
    Room = 9,
    /// Does `transmit` hold a name?
    Sent = 10,
    /// Does the packet fit the buffer?
    BufferHolds = 11,
}

impl Question {
    pub fn number(self) -> u8
        ensures { result ≡ question_number self }
    {
        self as u8
    }
}

/// Why a load is not granted: a question of the machine, or the program's fault, passed on whole.
#[derive(Debug, Clone, Copy, PartialEq, Eq)]
pub enum Refusal {
    Denied(Question),
    Faulty(Fault),
}

impl Refusal {
    // Two cases, each with the number of a question of its own enum: no discriminant has it.
    pub fn number(self) -> u8
        ensures { result ≡ refusal_number self }
    {
        match self {
            Refusal::Denied(question) => question.number(),
            Refusal::Faulty(fault) => fault.question.number(),
        }
    }
}

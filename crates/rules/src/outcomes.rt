//! What a step answers.
ghost use Rattle.std.specs.Prelude.{◌≡◌};
ghost use Rattle.rules.specs.Numbers.{cause_number};

/// Why a thread waits.
#[derive(Debug, Clone, Copy, PartialEq, Eq)]
pub enum Cause {
    /// A deq on an empty queue.
    EmptyQueue = 1,
    /// An enq on a queue of 16.
    FullQueue = 2,
    /// A new when the thread has made as many packets as the name limit allows.
    NoName = 3,
    /// A new when the store has no room for the packet.
    NoRoom = 4,
}

impl Cause {
    pub fn number(self) -> u8
        ensures { result ≡ cause_number self }
    {
        self as u8
    }
}

/// What came of a step.
#[derive(Debug, Clone, Copy, PartialEq, Eq)]
pub enum Outcome {
    Advanced,
    Waits(Cause),
    /// The thread ended before.
    Ended,
    /// No rule applies.
    Stuck,
}

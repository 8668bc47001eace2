//! What a thread does next.
ghost use Rattle.std.specs.Prelude.{◌≡◌, ℕ, List, []};
ghost use Rattle.rows.specs.Rows.{items};
ghost use Rattle.frames.specs.Threads.{thread_of};
ghost use Rattle.machine.specs.Moves.{quiet_move, changed, Roomy};

use frames::frame::Frame;
use frames::thread::Thread;
use rows::row::Row;
use rules::held::Held;
use store::Name;

/// The frames that a move puts into a thread. They are written in place: a move that carried them would be copied from call to call.
// Holds frames: a derived equality would compare what lies past the ends of their rows.
#[derive(Clone, Copy)]
pub(crate) struct Draft {
    /// The frame that will be on top.
    pub(crate) top: Frame,
    /// The frame that will lie below it, where one enters.
    pub(crate) caller: Frame,
}

/// How the frames of a thread change, some of them into those of a draft.
#[derive(Debug, Clone, Copy, PartialEq, Eq)]
pub(crate) enum Change {
    /// The frame on top goes on at another place. No more than that is written, and what the next two name.
    Go { place: usize },
    /// Likewise, with one variable more.
    Bind { place: usize, held: Held },
    /// Likewise, with a variable emptied.
    Spend { place: usize, variable: u8 },
    /// The frame on top becomes the drafted one.
    Top,
    /// The frame on top becomes the drafted caller, and the drafted top stands above it.
    Enter,
    /// The frame on top leaves, and the one below it becomes the drafted one.
    Leave,
    /// The last frame leaves.
    End,
}

/// What is done outside the thread.
#[derive(Debug, Clone, Copy, PartialEq, Eq)]
pub(crate) enum Outside {
    Nothing,
    /// Makes the thread's next packet, of so many zeros.
    Make(usize),
    Discard(Name),
    Write { name: Name, offset: usize, byte: u8 },
    /// The oldest name leaves a queue, and its packet is handed to the thread.
    Take { queue: u8, name: Name },
    /// A name joins a queue.
    Put { queue: u8, name: Name },
}

/// What a thread does next, in its frames and outside.
#[derive(Debug, Clone, Copy, PartialEq, Eq)]
pub(crate) struct Move {
    pub(crate) change: Change,
    pub(crate) outside: Outside,
}

impl Draft {
    /// Frames that nothing is written in.
    pub(crate) fn blank() -> Draft
        ensures { items result.top.variables ≡ [] }
    {
        let frame = Frame {
            function: 0,
            place: 0,
            variables: Row::new(Held::Nothing),
        };
        Draft {
            top: frame,
            caller: frame,
        }
    }
}

impl Change {
    /// Makes a change that there is room for.
    pub(crate) fn apply(self, draft: &Draft, thread: &mut Thread)
        requires { (b : List ℕ) → Roomy self (thread_of b thread.old) }
        ensures { (b : List ℕ) → thread_of b thread.new ≡ changed b draft.now self (thread_of b thread.old) }
    {
        match self {
            Change::Go { place } => thread.advance(place, None, None).unwrap(),
            Change::Bind { place, held } => thread.advance(place, None, Some(held)).unwrap(),
            Change::Spend { place, variable } => {
                thread.advance(place, Some(variable), None).unwrap()
            }
            Change::Top => thread.set_top(&draft.top),
            Change::Enter => thread.enter(draft.caller, draft.top).unwrap(),
            Change::Leave => thread.leave(&draft.top),
            Change::End => thread.end(),
        }
    }
}

impl Move {
    /// A change of the frames alone.
    #[inline(always)]
    pub(crate) fn quiet(change: Change) -> Move
        ensures { result ≡ quiet_move change }
    {
        Move {
            change,
            outside: Outside::Nothing,
        }
    }
}

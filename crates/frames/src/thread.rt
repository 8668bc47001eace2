//! A thread.
ghost use Rattle.std.specs.Prelude.{◌≡◌, ℕ, ◌<◌, ◌↔◌, List, [], length, IsOk, OnOk, OnErr};
ghost use Rattle.rules.specs.State.{frame, running, ended, frames};
ghost use Rattle.code.specs.Sights.{sees};
ghost use Rattle.frames.specs.Threads.{frame_of, thread_of, Stands, IsTop, IsBelow, Bindable, topped, gone_on, entered, left};

use crate::frame::Frame;
use rows::row::{Full, Row};
use rules::held::Held;

/// A thread has ended, or runs: its frame on top, and those below it, the bottom one first. At most eight frames in all.
// Holds rows: a derived equality would compare what lies past their ends.
#[derive(Clone, Copy)]
pub enum Thread {
    Ended,
    Running { top: Frame, below: Row<Frame, 7> },
}

/// How a thread stands, as far as it decides what a return does.
#[derive(Debug, Clone, Copy, PartialEq, Eq)]
pub enum Status {
    Ended,
    /// It runs its last frame.
    Last,
    /// It runs a frame with others below it.
    Nested,
}

impl Thread {
    /// A thread that begins a function without parameters, at a place.
    pub fn start(function: u8, place: usize) -> Thread
        ensures { (b : List ℕ) → thread_of b result ≡ running (frame function (sees b place) []) [] }
    {
        let top = Frame {
            function,
            place,
            variables: Row::new(Held::Nothing),
        };
        Thread::Running {
            top,
            below: Row::new(top),
        }
    }

    /// Whether the thread runs, and whether a frame lies below its top.
    pub fn status(&self) -> Status
        ensures { (b : List ℕ) → Stands result (thread_of b self.now) }
    {
        match self {
            Thread::Ended => Status::Ended,
            Thread::Running { below, .. } if below.is_empty() => Status::Last,
            Thread::Running { .. } => Status::Nested,
        }
    }

    /// The frame that runs.
    pub fn top(&self) -> Option<Frame>
        ensures { (b : List ℕ) → IsTop b self.now result }
    {
        match self {
            Thread::Ended => None,
            Thread::Running { top, .. } => Some(*top),
        }
    }

    /// The frame next below the top.
    pub fn below(&self) -> Option<Frame>
        ensures { (b : List ℕ) → IsBelow b self.now result }
    {
        match self {
            Thread::Ended => None,
            Thread::Running { below, .. } => below.as_slice().last().copied(),
        }
    }

    /// Another frame in the place of the one on top. A thread that has ended stays so in every change.
    pub fn set_top(&mut self, frame: &Frame)
        ensures { (b : List ℕ) → thread_of b self.new ≡ topped (frame_of b frame.now) (thread_of b self.old) }
    {
        if let Thread::Running { top, .. } = self {
            top.copy_from(frame);
        }
    }

    /// The frame on top goes on at another place: one value more may be bound, and the variable of a number emptied.
    #[inline(always)]
    pub fn advance(
        &mut self,
        place: usize,
        spent: Option<u8>,
        bound: Option<Held>,
    ) -> Result<(), Full>
        ensures room { (b : List ℕ) → IsOk result ↔ Bindable bound (thread_of b self.old) }
        ensures ok { OnOk result ((b : List ℕ) → thread_of b self.new ≡ gone_on (sees b place) spent bound (thread_of b self.old)) }
        ensures err { OnErr result (self.new ≡ self.old) }
    {
        match self {
            Thread::Ended => Ok(()),
            Thread::Running { top, .. } => top.advance(place, spent, bound),
        }
    }

    /// The frame on top becomes `caller`, and `callee` lies above it.
    pub fn enter(&mut self, caller: Frame, callee: Frame) -> Result<(), Full>
        ensures room { (b : List ℕ) → IsOk result ↔ (length (frames (thread_of b self.old)) < 8) }
        ensures ok { OnOk result ((b : List ℕ) → thread_of b self.new ≡ entered (frame_of b caller) (frame_of b callee) (thread_of b self.old)) }
        ensures err { OnErr result (self.new ≡ self.old) }
    {
        if let Thread::Running { top, below } = self {
            below.push(caller)?;
            *top = callee;
        }
        Ok(())
    }

    /// The frame on top leaves, and the one below it becomes `caller`. Nothing changes where none lies below.
    pub fn leave(&mut self, caller: &Frame)
        ensures { (b : List ℕ) → thread_of b self.new ≡ left (frame_of b caller.now) (thread_of b self.old) }
    {
        if let Thread::Running { top, below } = self {
            if below.pop().is_some() {
                top.copy_from(caller);
            }
        }
    }

    /// The thread has ended.
    pub fn end(&mut self)
        ensures { (b : List ℕ) → thread_of b self.new ≡ ended }
    {
        *self = Thread::Ended;
    }
}

//! What a thread does next.
ghost use Rattle.std.specs.Prelude.{◌≡◌, ℕ, List, length};
ghost use Rattle.rules.specs.State.{Frame as Framed};
ghost use Rattle.code.specs.Copies.{bytes_of};
ghost use Rattle.code.specs.Sights.{values_of, calling};
ghost use Rattle.machine.specs.States.{state_of, Fit, At};
ghost use Rattle.machine.specs.Moves.{Decided};

use super::Memory;
use crate::moves::{Draft, Move};
use crate::nodes;
use code::sights::Sight;
use frames::frame::Frame;
use frames::thread::{Status, Thread};
use reader::operations::Operation;
use reader::values::Values;
use rules::outcomes::Outcome;
use store::Store;

impl Memory {
    /// A call of a function of the program, or an operation of the language.
    fn call<S: Store>(
        &self,
        store: &S,
        thread: u8,
        top: &Frame,
        below: usize,
        operation: Operation,
        arguments: Values,
        draft: &mut Draft,
    ) -> Result<Move, Outcome>
        requires { Fit (state_of self.now (S.meaning store.now)) thread }
        ensures { (p : ℕ) (fs : List Framed) → length fs ≡ below
            → At self.now.code (state_of self.now (S.meaning store.now)) thread top.now (calling (bytes_of self.now.code) p operation (values_of (bytes_of self.now.code) arguments)) fs
            → Decided (bytes_of self.now.code) (state_of self.now (S.meaning store.now)) thread draft.new result }
    {
        match operation {
            Operation::Function(function) => nodes::enter(
                &self.code, top, below, function, arguments, draft,
            ),
            _ => self.operate(store, thread, top, operation, arguments),
        }
    }

    /// What a thread does next, or the outcome of a step that is no advance.
    pub(crate) fn decide<S: Store>(
        &self,
        store: &S,
        thread: u8,
        draft: &mut Draft,
    ) -> Result<Move, Outcome>
        requires { Fit (state_of self.now (S.meaning store.now)) thread }
        ensures { Decided (bytes_of self.now.code) (state_of self.now (S.meaning store.now)) thread draft.new result }
    {
        let running = self.thread(thread);
        // Before the thread is taken apart: it is not used whole after that.
        let status = running.status();
        let Thread::Running { top, below } = running else {
            return Err(Outcome::Ended);
        };
        match (self.code.sight(top.place), status) {
            (Sight::Return { values }, Status::Last) => nodes::end(&self.code, top, values, draft),
            (Sight::Return { values }, Status::Nested) => match below.as_slice().last() {
                Some(caller) => nodes::leave(&self.code, top, caller, values, draft),
                None => Err(Outcome::Stuck),
            },
            (Sight::Return { .. }, Status::Ended) => Err(Outcome::Ended),
            (
                Sight::Branch {
                    value,
                    first,
                    second,
                },
                _,
            ) => nodes::branch(top, value, first, second),
            (
                Sight::Call {
                    operation,
                    arguments,
                },
                _,
            ) => self.call(store, thread, top, below.len(), operation, arguments, draft),
            (Sight::Nothing, _) => Err(Outcome::Stuck),
        }
    }
}

//! What a walk over a body needs to know.
ghost use Rattle.std.specs.Prelude.{◌≡◌};
ghost use Rattle.reader.specs.Faults.{fault};

use reader::faults::Fault;
use reader::operations::Operation;
use reader::questions::Question;
use reader::values::Values;
use reader::windows::Window;
use records::tables::{Record, Table};

/// The function whose body is walked, in its program.
// The marks are no field: a walk stays as it is while they change, and each branch begins with a copy of them.
// Holds rows: a derived equality would compare what lies past their ends.
#[derive(Clone, Copy)]
pub(crate) struct Walk<'a> {
    pub(crate) table: Table<'a>,
    /// The bytes of the function's record.
    pub(crate) window: Window<'a>,
    pub(crate) record: Record,
}

impl Walk<'_> {
    /// The denial of a question at a place of the body.
    pub(crate) fn fault(&self, question: Question, place: usize) -> Fault
        ensures { result ≡ fault question self.now.window.function place }
    {
        self.window.fault(question, place)
    }
}

/// A call node, and the place of the node behind it.
#[derive(Debug, Clone, Copy, PartialEq, Eq)]
pub(crate) struct Call {
    pub(crate) place: usize,
    pub(crate) operation: Operation,
    pub(crate) arguments: Values,
    pub(crate) results: u8,
    pub(crate) next: usize,
}

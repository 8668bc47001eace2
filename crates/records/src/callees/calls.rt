//! What each operation takes and gives.
ghost use Rattle.std.specs.Prelude.{◌≡◌, ◌+◌, ◌≤◌, length, None, nat_lt};
ghost use Rattle.reader.specs.declared.operations.Operation.TheVariants.{Function};
ghost use Rattle.rows.specs.Rows.{items};
ghost use Rattle.records.specs.Tables.{ForProgram, Called, no_functions};

use super::Callee;
use crate::tables::Table;
use reader::operations::Operation;
use reader::types::Ty;
use rows::row::Row;

/// The queue that only the outside fills.
const RECEIVE: u8 = 0;

/// The queue that only the outside empties.
const TRANSMIT: u8 = 1;

/// A few types as a row.
fn row(types: &[Ty]) -> Row<Ty, 8>
    requires { length types.now ≤ 8 }
    ensures { items result ≡ types.now }
{
    let mut row = Row::new(Ty::Int);
    for ty in types {
        row.push(*ty).unwrap();
    }
    row
}

/// What is no function takes and gives: it has no depth.
fn flat(params: &[Ty], results: &[Ty]) -> Callee
    requires { (length params.now ≤ 8) × (length results.now ≤ 8) }
    ensures takes { items result.params ≡ params.now }
    ensures gives { items result.results ≡ results.now }
    ensures shallow { result.depth ≡ None }
{
    Callee {
        params: row(params),
        results: row(results),
        depth: None,
    }
}

/// Whether a queue exists: `receive`, `transmit` and the program's own.
fn has_queue(queue: u8, queues: u8) -> bool
    ensures { result ≡ nat_lt queue (2 + queues) }
{
    usize::from(queue) < 2 + usize::from(queues)
}

/// What an operation of the language takes and gives in a program with a number of own queues; a function is none of these.
pub fn built_in(operation: Operation, queues: u8) -> Option<Callee>
    ensures { Called (no_functions queues) operation result }
{
    match operation {
        Operation::Compute(_) => Some(flat(&[Ty::Int, Ty::Int], &[Ty::Int])),
        Operation::Compare(_) => Some(flat(&[Ty::Int, Ty::Int], &[Ty::Bool])),
        Operation::Connect(_) => Some(flat(&[Ty::Bool, Ty::Bool], &[Ty::Bool])),
        Operation::New => Some(flat(&[Ty::Int], &[Ty::Packet])),
        Operation::Kill => Some(flat(&[Ty::Packet], &[])),
        Operation::Read => Some(flat(&[Ty::Alias, Ty::Int], &[Ty::Int])),
        Operation::Update => Some(flat(&[Ty::Alias, Ty::Int, Ty::Int], &[])),
        Operation::Enq(queue) if has_queue(queue, queues) && queue != RECEIVE => {
            Some(flat(&[Ty::Packet], &[]))
        }
        Operation::Deq(queue) if has_queue(queue, queues) && queue != TRANSMIT => {
            Some(flat(&[], &[Ty::Packet]))
        }
        Operation::Enq(_) | Operation::Deq(_) | Operation::Function(_) | Operation::Unknown(_, _) =>
            None,
    }
}

impl Table<'_> {
    /// A function of the program.
    fn function(&self, function: u8) -> Option<Callee>
        ensures { ForProgram self.now (λ P. Called P (Function function) result) }
    {
        let record = self.record(function)?;
        Some(Callee {
            params: record.params,
            results: record.results,
            depth: Some(record.depth),
        })
    }

    /// What an operation takes and gives, if the program has that operation.
    pub fn callee(&self, operation: Operation) -> Option<Callee>
        ensures { ForProgram self.now (λ P. Called P operation result) }
    {
        match operation {
            Operation::Function(function) => self.function(function),
            _ => built_in(operation, self.header.queues),
        }
    }
}

//! The copy of a program.
use crate::functions::Function;
use rows::row::Row;

pub mod calls;
pub mod making;

/// A program, copied: nothing of the caller's bytes is needed any more. Nothing of it lies on the heap.
// Holds rows: a derived equality would compare what lies past their ends.
#[derive(Clone, Copy)]
pub struct Code {
    bytes: Row<u8, 4096>,
    threads: u8,
    queues: u8,
    functions: Row<Function, 64>,
}

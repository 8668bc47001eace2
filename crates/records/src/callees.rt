//! What can be called.
use reader::types::Ty;
use rows::row::Row;

pub mod calls;

/// What a callee takes and gives, and the depth of a function of the program.
// Holds rows: a derived equality would compare what lies past their ends.
#[derive(Clone, Copy)]
pub struct Callee {
    pub params: Row<Ty, 8>,
    pub results: Row<Ty, 8>,
    pub depth: Option<u8>,
}

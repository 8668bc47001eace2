//! The functions of a copied program.
use reader::types::Ty;
use rows::row::Row;

/// What the record of a function says, and the place of its body.
// Holds rows: a derived equality would compare what lies past their ends.
#[derive(Clone, Copy)]
pub struct Function {
    /// The place of the record.
    pub place: usize,
    pub depth: u8,
    pub params: Row<Ty, 8>,
    pub results: Row<Ty, 8>,
    /// The place of the body's first tag.
    pub body: usize,
}

//! The table of a program's records.
use reader::headers::Header;
use reader::types::Ty;
use rows::row::Row;

pub mod glances;
pub mod making;
pub mod records;

/// The counts of a program that reads, and the place of each of its records.
// Holds rows: a derived equality would compare what lies past their ends.
#[derive(Clone, Copy)]
pub struct Table<'a> {
    pub program: &'a [u8],
    pub header: Header,
    pub places: Row<usize, 64>,
}

/// What a function's record says before its body, and where its body stands.
// Holds rows: a derived equality would compare what lies past their ends.
#[derive(Clone, Copy)]
pub struct Record {
    pub depth: u8,
    pub params: Row<Ty, 8>,
    pub results: Row<Ty, 8>,
    /// The place of the body's first tag.
    pub body: usize,
    /// The place after the record.
    pub end: usize,
}

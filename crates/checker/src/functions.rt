//! Questions about single functions.
ghost use Rattle.std.specs.Prelude.{◌≡◌, not, ◌&&◌, ◌||◌, nat_le, position};
ghost use Rattle.rows.specs.Rows.{items};
ghost use Rattle.records.specs.Tables.{ForFunction};
ghost use Rattle.typing.specs.Layers.{empty, unlent, outside, inside};

use crate::marks::Marks;
use crate::walks::Walk;
use reader::faults::Fault;
use reader::questions::Question;
use reader::types::Ty;
use reader::windows::Window;
use records::tables::{Record, Table};
use rows::row::Row;

/// The index of the first alias among types.
fn first_alias(types: &Row<Ty, 8>) -> Option<usize>
    ensures { result ≡ position (λ τ. not (unlent τ)) (items types.now) }
{
    types.as_slice().iter().position(|ty| *ty == Ty::Alias)
}

/// Whether a function that is a thread's takes and gives nothing.
fn is_ready(threads: u8, function: u8, found: &Record) -> bool
    ensures { result ≡ (nat_le threads function || (empty (items found.now.params) && empty (items found.now.results))) }
{
    threads <= function || found.params.is_empty() && found.results.is_empty()
}

/// Layer 2 of a function: a thread's takes and gives nothing, and none gives an alias.
pub(crate) fn outside(table: &Table, function: u8) -> Result<(), Fault>
    ensures { ForFunction table.now function (λ P F. result ≡ outside P function F) }
{
    let Some(place) = table.places.get(usize::from(function)) else {
        return Ok(());
    };
    let Some(record) = table.record(function) else {
        return Ok(());
    };
    if !is_ready(table.header.threads, function, &record) {
        return Err(Fault::new(Question::ThreadSignature, function, place));
    }
    match first_alias(&record.results) {
        None => Ok(()),
        Some(i) => {
            let place = record.body.saturating_sub(record.results.len()) + i;
            Err(Fault::new(Question::NoAliasResult, function, place))
        }
    }
}

/// Layer 3 of a function: its body, from its parameters.
pub(crate) fn inside(table: &Table, function: u8) -> Result<(), Fault>
    ensures { ForFunction table.now function (λ P F. result ≡ inside P function F) }
{
    let Some(record) = table.record(function) else {
        return Ok(());
    };
    let end = record.end.min(table.program.len());
    let window = Window {
        bytes: &table.program[..end],
        function,
    };
    let walk = Walk {
        table: *table,
        window,
        record,
    };
    let mut marks = Marks {
        entries: Row::new(None),
    };
    marks.bind_all(&record.params);
    walk.body(&mut marks, 0, record.body)?;
    Ok(())
}

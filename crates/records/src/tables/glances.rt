//! What a record says before its body.
ghost use Rattle.std.specs.Prelude.{◌≡◌, ◌≤◌, length};
ghost use Rattle.reader.specs.Fields.{read_in};
ghost use Rattle.reader.specs.Programs.{types_at, signature_at};
ghost use Rattle.records.specs.Glances.{rowed, glanced, glance_in, glance_at};

use super::Record;
use reader::faults::Fault;
use reader::types::Ty;
use reader::windows::Window;
use rows::row::Row;

// The reader's `signature` and `skip` drop what these keep: one function for both would hand each item to an `FnMut`, whose clause is longer than this loop.
/// `count` types, and the place after them.
fn types(window: &Window, count: u8, place: usize) -> Result<(Row<Ty, 8>, usize), Fault>
    requires { count ≤ 8 }
    ensures { rowed result ≡ read_in window.now types_at count place }
{
    let mut types = Row::new(Ty::Int);
    let mut next = place;
    // A number of steps: each type is found behind the one before.
    for _ in 0..count {
        let (ty, after) = window.ty(next)?;
        types.push(ty).unwrap();
        next = after;
    }
    Ok((types, next))
}

/// A count and that many types, and the place after them.
fn signature(window: &Window, place: usize) -> Result<(Row<Ty, 8>, usize), Fault>
    ensures { rowed result ≡ read_in window.now signature_at place }
{
    let (count, next) = window.count(place)?;
    types(window, count, next)
}

/// What a window that is a record says from `place` on.
fn contents(window: &Window, place: usize) -> Result<Record, Fault>
    ensures { glanced result ≡ read_in window.now glance_in place }
{
    let (depth, next) = window.byte(place)?;
    let (params, next) = signature(window, next)?;
    let (results, next) = signature(window, next)?;
    Ok(Record {
        depth,
        params,
        results,
        body: next,
        end: window.bytes.len(),
    })
}

/// The record of a function at a place, without its body.
pub(crate) fn glance_at(program: &[u8], function: u8, place: usize) -> Result<Record, Fault>
    ensures { glanced result ≡ glance_at program.now (length program.now) function place }
{
    let (window, first) = Window::record(program, function, place)?;
    contents(&window, first)
}

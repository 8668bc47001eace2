//! How a table is made.
ghost use Rattle.std.specs.Prelude.{◌≡◌, ◌≤◌, length};
ghost use Rattle.rows.specs.Rows.{items};
ghost use Rattle.records.specs.Glances.{after, starts};
ghost use Rattle.records.specs.Tables.{Tabled};

use super::Table;
use reader::faults::Fault;
use reader::programs;
use reader::windows::{OUTSIDE, Window};
use rows::row::Row;

/// Where the length of the record at a place leads, or the end of the program.
fn place_after(program: &[u8], place: usize) -> usize
    ensures { result ≡ after program.now (length program.now) place }
{
    match Window::record(program, OUTSIDE, place) {
        Ok((window, _)) => window.bytes.len(),
        Err(_) => program.len(),
    }
}

/// The places of `count` records, the first right after the counts.
fn places(program: &[u8], count: u8) -> Row<usize, 64>
    requires { count ≤ 64 }
    ensures { items result ≡ starts program.now (length program.now) count 6 }
{
    let mut places = Row::new(0);
    let mut place = 6;
    // A number of steps: each place is found from the one before.
    for _ in 0..count {
        places.push(place).unwrap();
        place = place_after(program, place);
    }
    places
}

impl<'a> Table<'a> {
    /// The table of a program, or the first fault of layer 1.
    pub fn of(program: &'a [u8]) -> Result<Table<'a>, Fault>
        ensures { Tabled program.now result }
    {
        let header = programs::read(program)?;
        let places = places(program, header.functions);
        Ok(Table {
            program,
            header,
            places,
        })
    }
}

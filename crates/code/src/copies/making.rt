//! How a program is copied.
ghost use Rattle.std.specs.Prelude.{◌≡◌, map};
ghost use Rattle.reader.specs.Syntax.{Program};
ghost use Rattle.rows.specs.Rows.{items};
ghost use Rattle.records.specs.Tables.{ForProgram, Stands};
ghost use Rattle.code.specs.Copies.{Copied, Listed, function_of};

use super::Code;
use crate::functions::Function;
use checker::layers::check;
use reader::faults::Fault;
use reader::types::Ty;
use records::tables::Table;
use rows::row::Row;

/// A function by its number, if the program of a table has that function.
fn numbered(table: &Table, number: u8) -> Option<Function>
    ensures { ForProgram table.now (λ P. Listed table.now.program.now P number result) }
{
    let place = table.places.get(usize::from(number))?;
    let record = table.record(number)?;
    Some(Function {
        place,
        depth: record.depth,
        params: record.params,
        results: record.results,
        body: record.body,
    })
}

/// The functions of the program of a table.
fn functions(table: &Table) -> Row<Function, 64>
    requires { (P : Program) × Stands table.now P }
    ensures { ForProgram table.now (λ P. map (function_of table.now.program.now) (items result) ≡ P.functions) }
{
    let mut functions = Row::new(Function {
        place: 0,
        depth: 0,
        params: Row::new(Ty::Int),
        results: Row::new(Ty::Int),
        body: 0,
    });
    for number in 0..table.header.functions {
        let function = numbered(table, number).unwrap();
        functions.push(function).unwrap();
    }
    functions
}

impl Code {
    /// A copy of an accepted program, or the first fault of all three layers.
    pub fn of(program: &[u8]) -> Result<Code, Fault>
        ensures { Copied program.now result }
    {
        check(program)?;
        let table = Table::of(program)?;
        let mut bytes = Row::new(0);
        bytes.extend(program).unwrap();
        Ok(Code {
            bytes,
            threads: table.header.threads,
            queues: table.header.queues,
            functions: functions(&table),
        })
    }
}

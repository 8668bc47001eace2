//! Layers 2 and 3 of all functions, and the whole check.
ghost use Rattle.std.specs.Prelude.{◌≡◌, ◌↔◌, List, length, Ok};
ghost use Rattle.reader.specs.Syntax.{Function, Program};
ghost use Rattle.reader.specs.Encoding.{Writes};
ghost use Rattle.typing.specs.Typing.{Accepted};
ghost use Rattle.typing.specs.Layers.{each, verdict};
ghost use Rattle.checker.specs.Walks.{Answers};

use crate::functions::{inside, outside};
use reader::faults::Fault;
use records::tables::Table;

/// Puts the questions of a layer to each function, up to the first fault.
fn each<A: Fn(u8) -> Result<(), Fault>>(functions: u8, ask: A) -> Result<(), Fault>
    requires { A.IsAlwaysCallable ask }
    ensures { (asks : _) (Fs : List Function) → length Fs ≡ functions → Answers (A.post ask) asks Fs → result ≡ each asks 0 Fs }
{
    // By number, which the questions and their faults name.
    for function in 0..functions {
        ask(function)?;
    }
    Ok(())
}

/// Checks a program: granted, or the first fault of all three layers.
/// It is granted exactly when the bytes are the encoding of an accepted program.
pub fn check(program: &[u8]) -> Result<(), Fault>
    ensures answer { result ≡ verdict program.now }
    ensures granted { (result ≡ Ok tt) ↔ ((P : Program) × Writes P program.now × Accepted P) }
{
    let table = Table::of(program)?;
    each(table.header.functions, |function| outside(&table, function))?;
    each(table.header.functions, |function| inside(&table, function))
}

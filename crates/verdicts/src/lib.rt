//! Verdicts as they are printed.
#![tactic(auto)]

ghost use Rattle.std.specs.Prelude.{◌≡◌, IfOk, string_bytes};
ghost use Rattle.typing.specs.Layers.{verdict};
ghost use Rattle.verdicts.specs.Lines.{row, written};

use checker::layers::check;
use reader::faults::Fault;
use std::alloc::{AllocError, Global};

/// The numbers of a fault, with blanks between them.
// Not by its `Display`, which has words between the numbers.
fn numbers(heap: Global, fault: Fault) -> Result<String, AllocError>
    ensures { IfOk result (λ s. string_bytes s ≡ row fault) }
{
    let number = fault.question.number();
    let layer = fault.layer();
    let function = fault.function;
    let place = fault.place;
    format!(in heap; "{number} {layer} {function} {place}")
}

/// The verdict on a program in a line: `ok`, or the number, layer, function and place of the first fault.
pub fn line(heap: Global, program: &[u8]) -> Result<String, AllocError>
    ensures { IfOk result (λ s. string_bytes s ≡ written (verdict program.now)) }
{
    match check(program) {
        Ok(()) => String::from_str(heap, "ok"),
        Err(fault) => numbers(heap, fault),
    }
}

//! What a thread does next at a call of an operation that needs no store.
ghost use Rattle.std.specs.Prelude.{◌≡◌, ◌≢◌, ℕ, ◌<◌, List, length, None, Some};
ghost use Rattle.std.proofs.Math.Option.{some};
ghost use Rattle.reader.specs.declared.operations.Operation.{Operation as Called};
ghost use Rattle.reader.specs.declared.operations.Operation.TheVariants as o;
ghost use Rattle.reader.specs.declared.types.Ty.{Ty};
ghost use Rattle.reader.specs.declared.values.Operand.{Operand};
ghost use Rattle.reader.specs.Syntax.{call};
ghost use Rattle.rows.specs.Rows.{items};
ghost use Rattle.typing.specs.Signatures.{◌⇒◌, signature};
ghost use Rattle.rules.specs.State.{State, Frame as Framed};
ghost use Rattle.rules.specs.Rules.{Gives};
ghost use Rattle.code.specs.declared.copies.Code.{Code as Copy};
ghost use Rattle.code.specs.Copies.{bytes_of, program_of};
ghost use Rattle.code.specs.Sights.{sees};
ghost use Rattle.frames.specs.Giving.{emptied};
ghost use Rattle.machine.specs.States.{At};
ghost use Rattle.machine.specs.declared.moves.Draft.{Draft};
ghost use Rattle.machine.specs.Moves.{alone, bringing, Decided, Operated as Happens, Serves};

use crate::arithmetic::{calculate, compare, connect};
use crate::memory::outside::{Done, Given, gives};
use crate::moves::{Change, Move};
use crate::values::{integer, operands, truth};
use code::copies::Code;
use frames::frame::Frame;
use reader::operations::{Arithmetic, Comparison, Connective};
use reader::values::Values;
use rules::held::Held;
use rules::outcomes::Outcome;

/// Goes on behind an operation that gives a value: it is bound.
// That there is room for it is a fact of accepted programs, so it is not asked for here.
#[inline(always)]
pub(crate) fn bind(next: usize, happens: Given) -> Result<Move, Outcome>
    ensures { (c : Copy) (s : State) (t p k : ℕ) (f : Frame) (op : Called) (as' : List Operand) (fs : List Framed) (ρs σs : List Ty) (xs : List Held) (d : Draft)
        → At c s t f (call p op as' k (sees (bytes_of c) next)) fs → ((g : ℕ) → op ≢ o.Function g) → signature (program_of c) op ≡ some (ρs ⇒ σs)
        → Gives (items f.variables) as' ρs xs (emptied None (items f.variables)) → Happens s t op xs (bringing happens) → Decided (bytes_of c) s t d result }
{
    let (outside, held) = happens?;
    Ok(Move {
        change: Change::Bind { place: next, held },
        outside,
    })
}

/// Goes on behind an operation that takes the owner in a variable and gives nothing.
#[inline(always)]
pub(crate) fn spend(next: usize, variable: u8, happens: Done) -> Result<Move, Outcome>
    ensures { (c : Copy) (s : State) (t p k : ℕ) (f : Frame) (op : Called) (as' : List Operand) (fs : List Framed) (ρs σs : List Ty) (xs : List Held) (d : Draft)
        → At c s t f (call p op as' k (sees (bytes_of c) next)) fs → ((g : ℕ) → op ≢ o.Function g) → signature (program_of c) op ≡ some (ρs ⇒ σs)
        → variable < length (items f.variables) → Gives (items f.variables) as' ρs xs (emptied (Some variable) (items f.variables)) → Happens s t op xs (alone happens) → Decided (bytes_of c) s t d result }
{
    Ok(Move {
        change: Change::Spend {
            place: next,
            variable,
        },
        outside: happens?,
    })
}

/// Goes on behind an operation that takes no owner and gives nothing.
#[inline(always)]
pub(crate) fn go(next: usize, happens: Done) -> Result<Move, Outcome>
    ensures { (c : Copy) (s : State) (t p k : ℕ) (f : Frame) (op : Called) (as' : List Operand) (fs : List Framed) (ρs σs : List Ty) (xs : List Held) (d : Draft)
        → At c s t f (call p op as' k (sees (bytes_of c) next)) fs → ((g : ℕ) → op ≢ o.Function g) → signature (program_of c) op ≡ some (ρs ⇒ σs)
        → Gives (items f.variables) as' ρs xs (emptied None (items f.variables)) → Happens s t op xs (alone happens) → Decided (bytes_of c) s t d result }
{
    Ok(Move {
        change: Change::Go { place: next },
        outside: happens?,
    })
}

/// From two integers to an integer.
pub(crate) fn compute(
    code: &Code,
    top: &Frame,
    operation: Arithmetic,
    arguments: Values,
) -> Result<Move, Outcome>
    ensures { (s : State) (t : ℕ) → Serves code.now s t top.now (o.Compute operation) arguments result }
{
    let ([a, b], next) = operands::<2>(code, arguments)?;
    let a = integer(&top.variables, a)?;
    let b = integer(&top.variables, b)?;
    bind(next, gives(Held::Integer(calculate(operation, a, b))))
}

/// From two integers to a truth value.
pub(crate) fn compared(
    code: &Code,
    top: &Frame,
    operation: Comparison,
    arguments: Values,
) -> Result<Move, Outcome>
    ensures { (s : State) (t : ℕ) → Serves code.now s t top.now (o.Compare operation) arguments result }
{
    let ([a, b], next) = operands::<2>(code, arguments)?;
    let a = integer(&top.variables, a)?;
    let b = integer(&top.variables, b)?;
    bind(next, gives(Held::Truth(compare(operation, a, b))))
}

/// From two truth values to a truth value.
pub(crate) fn connected(
    code: &Code,
    top: &Frame,
    operation: Connective,
    arguments: Values,
) -> Result<Move, Outcome>
    ensures { (s : State) (t : ℕ) → Serves code.now s t top.now (o.Connect operation) arguments result }
{
    let ([a, b], next) = operands::<2>(code, arguments)?;
    let a = truth(&top.variables, a)?;
    let b = truth(&top.variables, b)?;
    bind(next, gives(Held::Truth(connect(operation, a, b))))
}

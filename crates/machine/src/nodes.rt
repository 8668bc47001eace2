//! What a node makes of the frames of its thread.
ghost use Rattle.std.specs.Prelude.{◌≡◌, ℕ, List, [], ◌∷◌, length};
ghost use Rattle.reader.specs.declared.operations.Operation.TheVariants as o;
ghost use Rattle.reader.specs.Syntax as tree;
ghost use Rattle.rules.specs.State.{State, Frame as Framed};
ghost use Rattle.code.specs.declared.copies.Code.{Code as Copy};
ghost use Rattle.code.specs.Copies.{bytes_of};
ghost use Rattle.code.specs.Sights.{sees, values_of, ending, calling};
ghost use Rattle.frames.specs.Threads.{frame_of};
ghost use Rattle.machine.specs.States.{At};
ghost use Rattle.machine.specs.declared.moves.Draft.{Draft as Drafted};
ghost use Rattle.machine.specs.Moves.{Decided, Returned};

use crate::moves::{Change, Draft, Move};
use crate::values::truth;
use code::copies::Code;
use frames::frame::Frame;
use frames::giving::give_all;
use reader::values::{Operand, Values};
use rules::outcomes::Outcome;

/// An if goes on in one of its branches.
#[inline(always)]
pub(crate) fn branch(
    top: &Frame,
    value: Operand,
    first: usize,
    second: usize,
) -> Result<Move, Outcome>
    ensures { (c : Copy) (s : State) (t p : ℕ) (fs : List Framed) (d : Drafted) → At c s t top.now (tree.branch p value (sees (bytes_of c) first) (sees (bytes_of c) second)) fs → Decided (bytes_of c) s t d result }
{
    let truth = truth(&top.variables, value.value)?;
    let place = if truth { first } else { second };
    Ok(Move::quiet(Change::Go { place }))
}

/// Gives what a return gives, as variables more of the drafted top. Says where the list of its values ends.
fn give_results(code: &Code, top: &Frame, values: Values, draft: &mut Draft) -> Option<usize>
    ensures { Returned code.now top.now values draft.old.top result draft.new.top }
{
    let function = code.function(top.function)?;
    // The other frame of the draft, which no return uses: its values leave their variables.
    draft.caller.copy_from(top);
    give_all(
        code,
        &mut draft.caller.variables,
        values,
        &function.results,
        &mut draft.top.variables,
    )
}

/// A return binds its values in the frame below.
pub(crate) fn leave(
    code: &Code,
    top: &Frame,
    below: &Frame,
    values: Values,
    draft: &mut Draft,
) -> Result<Move, Outcome>
    ensures { (s : State) (t p : ℕ) (fs : List Framed) → At code.now s t top.now (ending p (values_of (bytes_of code.now) values)) (frame_of (bytes_of code.now) below.now ∷ fs) → Decided (bytes_of code.now) s t draft.new result }
{
    draft.top.copy_from(below);
    match give_results(code, top, values, draft) {
        Some(_) => Ok(Move::quiet(Change::Leave)),
        None => Err(Outcome::Stuck),
    }
}

/// The last return ends the thread.
pub(crate) fn end(
    code: &Code,
    top: &Frame,
    values: Values,
    draft: &mut Draft,
) -> Result<Move, Outcome>
    ensures { (s : State) (t p : ℕ) → At code.now s t top.now (ending p (values_of (bytes_of code.now) values)) [] → Decided (bytes_of code.now) s t draft.new result }
{
    draft.top.variables.clear();
    match give_results(code, top, values, draft) {
        Some(_) => Ok(Move::quiet(Change::End)),
        None => Err(Outcome::Stuck),
    }
}

/// A call of a function of the program adds a frame; a tail call replaces the frame.
pub(crate) fn enter(
    code: &Code,
    top: &Frame,
    below: usize,
    function: u8,
    arguments: Values,
    draft: &mut Draft,
) -> Result<Move, Outcome>
    ensures { (s : State) (t p : ℕ) (fs : List Framed) → length fs ≡ below → At code.now s t top.now (calling (bytes_of code.now) p (o.Function function) (values_of (bytes_of code.now) arguments)) fs → Decided (bytes_of code.now) s t draft.new result }
{
    let Some(entered) = code.function(function) else {
        return Err(Outcome::Stuck);
    };
    draft.caller.copy_from(top);
    draft.top.variables.clear();
    let Some(end) = give_all(
        code,
        &mut draft.caller.variables,
        arguments,
        &entered.params,
        &mut draft.top.variables,
    ) else {
        return Err(Outcome::Stuck);
    };
    let Some((results, next)) = code.results(end) else {
        return Err(Outcome::Stuck);
    };
    draft.top.function = function;
    draft.top.place = entered.body;
    if code.is_tail(top.variables.len() as u8, results, next) {
        return Ok(Move::quiet(Change::Top));
    }
    if below >= 7 {
        return Err(Outcome::Stuck);
    }
    draft.caller.place = next;
    Ok(Move::quiet(Change::Enter))
}

//! Values given at types.
ghost use Rattle.std.specs.Prelude.{◌≡◌};
ghost use Rattle.rows.specs.Rows.{items};
ghost use Rattle.code.specs.Copies.{bytes_of};
ghost use Rattle.frames.specs.Giving.{shared, holds, Given, GivenAll};

use code::copies::Code;
use reader::types::Ty;
use reader::values::{Value, Values};
use rows::row::Row;
use rules::held::Held;

/// What a value holds: a constant, itself; a variable, what is in it.
#[inline(always)]
pub fn held(variables: &Row<Held, 16>, value: Value) -> Option<Held>
    ensures { result ≡ holds (items variables.now) value }
{
    match value {
        Value::Integer(integer) => Some(Held::Integer(integer)),
        Value::Truth(truth) => Some(Held::Truth(truth)),
        Value::Variable(variable) => variables.get(usize::from(variable)),
    }
}

/// What is given at a type by what holds `held`.
fn share(held: Held, ty: Ty) -> Option<Held>
    ensures { result ≡ shared held ty }
{
    match (held, ty) {
        (Held::Integer(_), Ty::Int)
        | (Held::Truth(_), Ty::Bool)
        | (Held::Alias(_), Ty::Alias)
        | (Held::Owner(_), Ty::Packet) => Some(held),
        (Held::Owner(name), Ty::Alias) => Some(Held::Alias(name)),
        _ => None,
    }
}

/// What a value gives at a type, if it gives anything; an owner that is given as packet leaves nothing in its variable.
#[inline(always)]
fn give(variables: &mut Row<Held, 16>, value: Value, ty: Ty) -> Option<Held>
    ensures { Given variables.old value ty result variables.new }
{
    match value {
        Value::Integer(integer) => share(Held::Integer(integer), ty),
        Value::Truth(truth) => share(Held::Truth(truth), ty),
        Value::Variable(variable) => {
            let place = usize::from(variable);
            let given = share(variables.get(place)?, ty)?;
            if ty == Ty::Packet {
                variables.put(place, Held::Nothing);
            }
            Some(given)
        }
    }
}

/// Gives a list of values, from the left, at as many types: what they give joins `given`. Says where the list ends.
/// Where it is `None`, some of the values may have been given already.
pub fn give_all(
    code: &Code,
    variables: &mut Row<Held, 16>,
    values: Values,
    types: &Row<Ty, 8>,
    given: &mut Row<Held, 16>,
) -> Option<usize>
    ensures { GivenAll (bytes_of code.now) variables.old values types.now given.old result variables.new given.new }
{
    if usize::from(values.count) != types.len() {
        return None;
    }
    // The place goes along by hand: an iterator over the values would owe a relation of what it yields.
    let mut place = values.place;
    for ty in types.as_slice() {
        let (value, next) = code.value(place)?;
        given.push(give(variables, value, *ty)?).ok()?;
        place = next;
    }
    Some(place)
}

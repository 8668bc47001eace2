//! What values hold that an operation takes.
ghost use Rattle.std.specs.Prelude.{◌≡◌, IfErr};
ghost use Rattle.rows.specs.Rows.{items};
ghost use Rattle.rules.specs.declared.outcomes.Outcome.TheVariants as outcome;
ghost use Rattle.code.specs.Copies.{bytes_of};
ghost use Rattle.frames.specs.Giving.{holds};
ghost use Rattle.machine.specs.Moves.{Argues, Finds, FindsAlias, FindsOwner};

use code::copies::Code;
use frames::giving::held;
use reader::values::{Value, Values};
use rows::row::Row;
use rules::held::Held;
use rules::outcomes::Outcome;
use store::Name;

/// The arguments of a call, if it has `N`, and the place of the node after it; an operation is stuck where it has others.
#[inline(always)]
pub(crate) fn operands<const N: usize>(
    code: &Code,
    values: Values,
) -> Result<([Value; N], usize), Outcome>
    ensures { Argues (bytes_of code.now) values N result }
{
    code.arguments(values).ok_or(Outcome::Stuck)
}

/// The integer that a value gives; an operation is stuck where it gives none.
#[inline(always)]
pub(crate) fn integer(variables: &Row<Held, 16>, value: Value) -> Result<u32, Outcome>
    ensures finds { Finds Held.Integer (holds (items variables.now) value) result }
    ensures stuck { IfErr result (λ e. e ≡ outcome.Stuck) }
{
    match held(variables, value).ok_or(Outcome::Stuck)? {
        Held::Integer(number) => Ok(number),
        _ => Err(Outcome::Stuck),
    }
}

/// Likewise the truth value.
#[inline(always)]
pub(crate) fn truth(variables: &Row<Held, 16>, value: Value) -> Result<bool, Outcome>
    ensures finds { Finds Held.Truth (holds (items variables.now) value) result }
    ensures stuck { IfErr result (λ e. e ≡ outcome.Stuck) }
{
    match held(variables, value).ok_or(Outcome::Stuck)? {
        Held::Truth(truth) => Ok(truth),
        _ => Err(Outcome::Stuck),
    }
}

/// Likewise the name of a packet, which an owner gives too.
#[inline(always)]
pub(crate) fn alias(variables: &Row<Held, 16>, value: Value) -> Result<Name, Outcome>
    ensures finds { FindsAlias (holds (items variables.now) value) result }
    ensures stuck { IfErr result (λ e. e ≡ outcome.Stuck) }
{
    match held(variables, value).ok_or(Outcome::Stuck)? {
        Held::Alias(name) | Held::Owner(name) => Ok(name),
        _ => Err(Outcome::Stuck),
    }
}

/// The variable of an owner, and its name.
#[inline(always)]
pub(crate) fn owner(variables: &Row<Held, 16>, value: Value) -> Result<(u8, Name), Outcome>
    ensures finds { FindsOwner (items variables.now) value result }
    ensures stuck { IfErr result (λ e. e ≡ outcome.Stuck) }
{
    let Value::Variable(variable) = value else {
        return Err(Outcome::Stuck);
    };
    match variables.get(usize::from(variable)).ok_or(Outcome::Stuck)? {
        Held::Owner(name) => Ok((variable, name)),
        _ => Err(Outcome::Stuck),
    }
}

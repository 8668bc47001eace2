//! What operations on integers and truth values give.
ghost use Rattle.std.specs.Prelude.{◌≡◌};
ghost use Rattle.rules.specs.Rules.{calculate as calculated, compare as compared, connect as connected};

use reader::operations::{Arithmetic, Comparison, Connective};

/// Modulo 2^32; the last three go bit by bit.
pub(crate) fn calculate(operation: Arithmetic, a: u32, b: u32) -> u32
    ensures { result ≡ calculated operation a b }
{
    match operation {
        Arithmetic::Add => a.wrapping_add(b),
        Arithmetic::Subtract => a.wrapping_sub(b),
        Arithmetic::Times => a.wrapping_mul(b),
        Arithmetic::BitAnd => a & b,
        Arithmetic::BitOr => a | b,
        Arithmetic::BitXor => a ^ b,
    }
}

/// Unsigned.
pub(crate) fn compare(operation: Comparison, a: u32, b: u32) -> bool
    ensures { result ≡ compared operation a b }
{
    match operation {
        Comparison::Equal => a == b,
        Comparison::Less => a < b,
    }
}

pub(crate) fn connect(operation: Connective, a: bool, b: bool) -> bool
    ensures { result ≡ connected operation a b }
{
    match operation {
        Connective::And => a && b,
        Connective::Or => a || b,
    }
}

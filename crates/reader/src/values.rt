//! Values as a program writes them.
ghost use Rattle.std.specs.Prelude.{Some};
ghost use Rattle.reader.specs.Texts.{value_text};

use std::fmt;

/// A constant or a variable.
#[derive(Debug, Clone, Copy, PartialEq, Eq)]
pub enum Value {
    Integer(u32),
    Truth(bool),
    Variable(u8),
}

/// A value with the place of its tag.
#[derive(Debug, Clone, Copy, PartialEq, Eq)]
pub struct Operand {
    pub place: usize,
    pub value: Value,
}

/// Values in a row, where they stand in the bytes.
#[derive(Debug, Clone, Copy, PartialEq, Eq)]
pub struct Values {
    pub count: u8,
    /// The place of the first one's tag.
    pub place: usize,
}

/// A number, `true` or `false`, or a variable as `v3`.
impl fmt::Display for Value {
    ghost output = { λ value. Some (value_text value) };

    fn fmt<W: fmt::Write>(&self, f: &mut fmt::Formatter<W>) -> fmt::Result {
        match self {
            Value::Integer(integer) => write!(f, "{integer}"),
            Value::Truth(truth) => write!(f, "{truth}"),
            Value::Variable(variable) => write!(f, "v{variable}"),
        }
    }
}

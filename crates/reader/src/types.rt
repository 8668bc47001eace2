//! The four types.
ghost use Rattle.std.specs.Prelude.{Some};
ghost use Rattle.reader.specs.Texts.{type_name, unknown_type};
ghost use Rattle.reader.specs.Types.{Decodes};

use std::error::Error;
use std::fmt;

/// The type of a variable, a parameter or a result.
#[derive(Debug, Clone, Copy, PartialEq, Eq)]
pub enum Ty {
    Int,
    Bool,
    /// A packet that the variable owns.
    Packet,
    /// A packet that the variable may use while its owner lends it.
    Alias,
}

/// A byte that is the code of no type.
#[derive(Debug, Clone, Copy, PartialEq, Eq)]
pub struct UnknownType(pub u8);

/// The type that a byte of a program stands for.
impl TryFrom<u8> for Ty {
    type Error = UnknownType;

    ghost try_from_gives = { Decodes };

    fn try_from(code: u8) -> Result<Ty, UnknownType> {
        match code {
            1 => Ok(Ty::Int),
            2 => Ok(Ty::Bool),
            3 => Ok(Ty::Packet),
            4 => Ok(Ty::Alias),
            _ => Err(UnknownType(code)),
        }
    }
}

/// The name of the type; an alias is marked by `!`.
impl fmt::Display for Ty {
    ghost output = { λ ty. Some (type_name ty) };

    fn fmt<W: fmt::Write>(&self, f: &mut fmt::Formatter<W>) -> fmt::Result {
        f.write_str(match self {
            Ty::Int => "int",
            Ty::Bool => "bool",
            Ty::Packet => "packet",
            Ty::Alias => "!packet",
        })
    }
}

impl fmt::Display for UnknownType {
    ghost output = { λ unknown. Some (unknown_type unknown) };

    fn fmt<W: fmt::Write>(&self, f: &mut fmt::Formatter<W>) -> fmt::Result {
        write!(f, "no type has code {}", self.0)
    }
}

impl Error for UnknownType {}

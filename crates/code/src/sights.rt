//! What a place shows.
ghost use Rattle.std.specs.Prelude.{◌≡◌};
ghost use Rattle.code.specs.Copies.{bytes_of};
ghost use Rattle.code.specs.Sights.{Showing, sight_at};

use crate::copies::Code;
use reader::faults::Fault;
use reader::operations::Operation;
use reader::questions::Question;
use reader::values::{Operand, Values};

/// What stands at a place, up to the first list of values in it; and where the branches of an if stand.
#[derive(Debug, Clone, Copy, PartialEq, Eq)]
pub enum Sight {
    Return {
        values: Values,
    },
    Branch {
        value: Operand,
        first: usize,
        second: usize,
    },
    Call {
        operation: Operation,
        arguments: Values,
    },
    /// Nothing can be read there.
    Nothing,
}

impl Code {
    /// What is read at a place before any list. A list is walked once, where its values are given.
    #[inline(always)]
    fn glance(&self, place: usize) -> Result<Sight, Fault>
        ensures { result ≡ sight_at (bytes_of self.now) place }
    {
        let window = self.window();
        let (tag, next) = window.byte(place)?;
        match tag {
            0x01 => {
                let (count, place) = window.count(next)?;
                Ok(Sight::Return {
                    values: Values { count, place },
                })
            }
            0x02 => {
                let (value, field) = window.value(next)?;
                let (length, first) = window.half(field)?;
                Ok(Sight::Branch {
                    value: Operand { place: next, value },
                    first,
                    second: first + usize::from(length),
                })
            }
            0x03 => {
                let (kind, next) = window.byte(next)?;
                let (index, next) = window.byte(next)?;
                let (count, place) = window.count(next)?;
                Ok(Sight::Call {
                    operation: Operation::from((kind, index)),
                    arguments: Values { count, place },
                })
            }
            _ => Err(window.fault(Question::KnownNode, place)),
        }
    }

    /// What a place shows.
    #[inline(always)]
    pub fn sight(&self, place: usize) -> Sight
        ensures { Showing (bytes_of self.now) place result }
    {
        self.glance(place).unwrap_or(Sight::Nothing)
    }
}

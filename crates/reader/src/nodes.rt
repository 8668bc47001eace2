//! Nodes: from the place of a tag to the node and the place of what follows it.
ghost use Rattle.std.specs.Prelude.{◌≡◌, IfOk, length};
ghost use Rattle.reader.specs.Fields.{read_in, Onward};
ghost use Rattle.reader.specs.Nodes.{node_at, sight, Nested};

use crate::faults::Fault;
use crate::operations::Operation;
use crate::questions::Question;
use crate::values::{Operand, Values};
use crate::windows::Window;

/// A node without what follows it.
#[derive(Debug, Clone, Copy, PartialEq, Eq)]
pub enum Node {
    Return {
        values: Values,
    },
    /// The first branch follows; `length` stands at `field` and says how many bytes it takes.
    Branch {
        value: Operand,
        field: usize,
        length: u16,
    },
    Call {
        operation: Operation,
        arguments: Values,
        results: u8,
    },
}

/// The most ifs on a path.
const MOST_IFS: u8 = 16;

impl Window<'_> {
    /// The node at a place under `ifs` ifs.
    #[inline(always)]
    pub fn node(&self, ifs: u8, place: usize) -> Result<(Node, usize), Fault>
        ensures reads { result ≡ sight place (read_in self.now node_at ifs place) }
        ensures onward { Onward place (length self.now.bytes.now) result }
        ensures nested { IfOk result (λ x. Nested ifs x.0) }
    {
        let (tag, next) = self.byte(place)?;
        match tag {
            0x01 => {
                let (values, next) = self.list(next)?;
                Ok((Node::Return { values }, next))
            }
            0x02 => {
                if ifs >= MOST_IFS {
                    return Err(self.fault(Question::Nesting, place));
                }
                let (value, field) = self.value(next)?;
                let (length, first) = self.half(field)?;
                Ok((
                    Node::Branch {
                        value: Operand { place: next, value },
                        field,
                        length,
                    },
                    first,
                ))
            }
            0x03 => {
                let (kind, next) = self.byte(next)?;
                let (index, next) = self.byte(next)?;
                let (arguments, next) = self.list(next)?;
                let (results, next) = self.count(next)?;
                Ok((
                    Node::Call {
                        operation: Operation::from((kind, index)),
                        arguments,
                        results,
                    },
                    next,
                ))
            }
            _ => Err(self.fault(Question::KnownNode, place)),
        }
    }
}

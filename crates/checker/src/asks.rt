//! Questions about single values.
ghost use Rattle.std.specs.Prelude.{◌≡◌};
ghost use Rattle.rows.specs.Rows.{items};
ghost use Rattle.typing.specs.Marks.{fits, give, test};
ghost use Rattle.checker.specs.Walks.{context, seen, sighted, changed};

use crate::marks::Marks;
use crate::walks::Walk;
use reader::faults::Fault;
use reader::questions::Question;
use reader::types::Ty;
use reader::values::{Operand, Value};
use rows::row::Row;

/// Whether what is held may be given where a type is wanted.
fn fit(held: Ty, wanted: Ty) -> bool
    ensures { result ≡ fits held wanted }
{
    held == wanted || matches!((held, wanted), (Ty::Packet, Ty::Alias))
}

impl Walk<'_> {
    /// What is known of a value, which has to be bound.
    fn known(&self, marks: &Marks, operand: Operand) -> Result<Option<Ty>, Fault>
        ensures { result ≡ sighted self.now.window.function (context marks.now) operand }
    {
        // The fault is made whether or not it is needed: with `ok_or_else` the check answers "`search` did not prove `returns`".
        marks
            .seen(operand.value)
            .ok_or(self.fault(Question::Bound, operand.place))
    }

    /// Puts the questions about one value that is given where a type is wanted.
    pub(crate) fn give(
        &self,
        marks: &mut Marks,
        named: &Row<u8, 8>,
        operand: Operand,
        wanted: Ty,
    ) -> Result<(), Fault>
        ensures { changed result marks.new ≡ give self.now.window.function (context marks.old) (items named.now) operand wanted }
    {
        let Some(held) = self.known(marks, operand)? else {
            return Err(self.fault(Question::Unspent, operand.place));
        };
        if !fit(held, wanted) {
            return Err(self.fault(Question::Fits, operand.place));
        }
        if let (Ty::Packet, Value::Variable(x)) = (wanted, operand.value) {
            if named.as_slice().contains(&x) {
                return Err(self.fault(Question::Once, operand.place));
            }
            marks.entries.put(usize::from(x), None);
        }
        Ok(())
    }

    /// Puts the questions about the value of an if.
    pub(crate) fn test(&self, marks: &Marks, operand: Operand) -> Result<(), Fault>
        ensures { result ≡ test self.now.window.function (context marks.now) operand }
    {
        match self.known(marks, operand)? {
            Some(Ty::Bool) => Ok(()),
            _ => Err(self.fault(Question::Fits, operand.place)),
        }
    }
}

//! Questions about lists of values.
ghost use Rattle.std.specs.Prelude.{◌≡◌, ℕ, ◌+◌, ◌<◌, ◌≤◌, List, [], length, Ok};
ghost use Rattle.reader.specs.declared.values.Operand.{Operand as Placed};
ghost use Rattle.reader.specs.Fields.{read_in};
ghost use Rattle.reader.specs.Syntax.{Body};
ghost use Rattle.reader.specs.Nodes.{body_at};
ghost use Rattle.rows.specs.Rows.{items};
ghost use Rattle.typing.specs.Marks.{gives, note, is_tail};
ghost use Rattle.checker.specs.Walks.{context, changed, Holds};

use crate::marks::Marks;
use crate::variables::consecutive;
use crate::walks::Walk;
use reader::faults::Fault;
use reader::nodes::Node;
use reader::types::Ty;
use reader::values::{Operand, Value, Values};
use rows::row::Row;

/// Adds the variable that a value names to those named before.
fn note(named: &mut Row<u8, 8>, value: Value)
    requires { length (items named.old) < 8 }
    ensures { items named.new ≡ note value (items named.old) }
{
    if let Value::Variable(x) = value {
        named.push(x).unwrap();
    }
}

impl Walk<'_> {
    /// Puts the questions about a list of values, from the left, where as many types are wanted.
    pub(crate) fn give_all(
        &self,
        marks: &mut Marks,
        values: Values,
        wanted: &Row<Ty, 8>,
    ) -> Result<(), Fault>
        requires { length (items wanted.now) ≡ values.count }
        ensures { (vs : List Placed) → Holds self.now.window values vs → changed result marks.new ≡ gives self.now.window.function (context marks.old) [] vs (items wanted.now) }
    {
        let mut named = Row::new(0);
        // The place goes along by hand, as in `consecutive`: an iterator over the values would owe a relation of what it yields.
        let mut place = values.place;
        for ty in wanted.as_slice() {
            let (value, next) = self.window.value(place)?;
            self.give(marks, &named, Operand { place, value }, *ty)?;
            note(&mut named, value);
            place = next;
        }
        Ok(())
    }

    /// Whether a call of `results` results, bound from `first` on, is a tail call: the body at the place behind it returns just them.
    pub(crate) fn is_tail(&self, ifs: u8, first: usize, results: u8, place: usize) -> bool
        requires { first ≤ 16 }
        ensures { (t : Body × ℕ) → read_in self.now.window body_at ifs place ≡ Ok t → result ≡ is_tail first results t.0 }
    {
        let Ok((node, _)) = self.window.node(ifs, place) else {
            return false;
        };
        let Node::Return { values } = node else {
            return false;
        };
        values.count == results && consecutive(&self.window, first as u8, values)
    }
}

//! The marks of a path.
ghost use Rattle.std.specs.Prelude.{◌≡◌, ◌+◌, ◌≤◌, ◌++◌, map, length, Some};
ghost use Rattle.rows.specs.Rows.{items};
ghost use Rattle.typing.specs.Marks.{all_spent};
ghost use Rattle.checker.specs.Walks.{context, seen};

use reader::types::Ty;
use reader::values::Value;
use rows::row::Row;

/// What is known of each variable that the path has bound; of a spent owner nothing is.
// Holds a row: a derived equality would compare what lies past its end.
#[derive(Clone, Copy)]
pub(crate) struct Marks {
    pub(crate) entries: Row<Option<Ty>, 16>,
}

impl Marks {
    /// What is known of a value, if it is bound.
    pub(crate) fn seen(&self, value: Value) -> Option<Option<Ty>>
        ensures { result ≡ seen (context self.now) value }
    {
        match value {
            Value::Integer(_) => Some(Some(Ty::Int)),
            Value::Truth(_) => Some(Some(Ty::Bool)),
            Value::Variable(x) => self.entries.get(usize::from(x)),
        }
    }

    /// Whether every owner is spent.
    pub(crate) fn all_spent(&self) -> bool
        ensures { result ≡ all_spent (context self.now) }
    {
        self.entries
            .as_slice()
            .iter()
            .all(|entry| *entry != Some(Ty::Packet))
    }

    /// Binds a variable of each type.
    pub(crate) fn bind_all(&mut self, types: &Row<Ty, 8>)
        requires { length (context self.old) + length (items types.now) ≤ 16 }
        ensures { context self.new ≡ context self.old ++ map Some (items types.now) }
    {
        for ty in types.as_slice() {
            self.entries.push(Some(*ty)).unwrap();
        }
    }
}

//! The walk over a body.
ghost use Rattle.std.specs.Prelude.{◌≡◌, ℕ, ◌<◌, IfOk, Ok};
ghost use Rattle.reader.specs.Fields.{read_in, then};
ghost use Rattle.reader.specs.Syntax.{Body, Function, Program};
ghost use Rattle.reader.specs.Nodes.{body_at};
ghost use Rattle.typing.specs.Marks.{body};
ghost use Rattle.checker.specs.Walks.{context, Walks};

use crate::marks::Marks;
use crate::walks::{Call, Walk};
use reader::faults::Fault;
use reader::nodes::Node;

// That the body reads is a premise here, in `enter`, `bind` and `is_tail`: each speaks of the tree `t` that it reads as.
impl Walk<'_> {
    /// Puts the questions about a body under `ifs` ifs, node after node; the place after it.
    /// Each branch of an if starts from the marks that stood before it.
    pub(crate) fn body(&self, marks: &mut Marks, ifs: u8, place: usize) -> Result<usize, Fault>
        ensures answer { (P : Program) (F : Function) (t : Body × ℕ) → Walks self.now P F → read_in self.now.window body_at ifs place ≡ Ok t → result ≡ then (body P self.now.window.function F (context marks.old) t.0) (λ _. Ok t.1) }
        ensures onward { IfOk result (λ z. place < z) }
    {
        let (node, next) = self.window.node(ifs, place)?;
        match node {
            Node::Return { values } => {
                self.leave(marks, place, values)?;
                Ok(next)
            }
            Node::Branch { value, .. } => {
                self.test(marks, value)?;
                let before = *marks;
                let second = self.body(marks, ifs + 1, next)?;
                *marks = before;
                self.body(marks, ifs + 1, second)
            }
            Node::Call {
                operation,
                arguments,
                results,
            } => {
                let call = Call {
                    place,
                    operation,
                    arguments,
                    results,
                    next,
                };
                self.enter(marks, ifs, call)?;
                self.body(marks, ifs, next)
            }
        }
    }
}

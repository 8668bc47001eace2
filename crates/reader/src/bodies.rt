//! Bodies: nodes with all that follows them.
ghost use Rattle.std.specs.Prelude.{◌≡◌, ◌<◌, ◌≤◌, IfOk, length};
ghost use Rattle.reader.specs.Fields.{read_in, placed};
ghost use Rattle.reader.specs.Nodes.{body_at};

use crate::faults::Fault;
use crate::nodes::Node;
use crate::questions::Question;
use crate::windows::Window;

impl Window<'_> {
    /// The place after a body that stands under `ifs` ifs.
    #[tactic(auto, using(crate::proofs::Following::body_is))]
    pub(crate) fn body(&self, ifs: u8, place: usize) -> Result<usize, Fault>
        ensures reads { result ≡ placed (read_in self.now body_at ifs place) }
        ensures onward { IfOk result (λ z. (place < z) × (z ≤ length self.now.bytes.now)) }
    {
        let (node, next) = self.node(ifs, place)?;
        match node {
            Node::Return { .. } => Ok(next),
            Node::Branch { field, length, .. } => {
                let second = self.body(ifs + 1, next)?;
                if second - next != usize::from(length) {
                    return Err(self.fault(Question::BranchLength, field));
                }
                self.body(ifs + 1, second)
            }
            Node::Call { .. } => self.body(ifs, next),
        }
    }
}

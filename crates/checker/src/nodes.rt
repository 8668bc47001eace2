//! Questions about whole nodes.
ghost use Rattle.std.specs.Prelude.{◌≡◌, ℕ, List, length, Ok};
ghost use Rattle.reader.specs.declared.values.Operand.{Operand as Placed};
ghost use Rattle.reader.specs.Fields.{read_in};
ghost use Rattle.rows.specs.Rows.{items};
ghost use Rattle.reader.specs.Syntax.{Body};
ghost use Rattle.reader.specs.Nodes.{body_at};
ghost use Rattle.records.specs.Tables.{maybe, ForProgram};
ghost use Rattle.typing.specs.Marks.{depth_holds};
ghost use Rattle.checker.specs.Walks.{context, changed, Holds, leaving, binding, entering};

use crate::marks::Marks;
use crate::walks::{Call, Walk};
use reader::faults::Fault;
use reader::questions::Question;
use reader::values::Values;
use records::callees::Callee;

/// The most variables that a path may bind.
const MOST_VARIABLES: usize = 16;

/// Whether a call keeps the depth rule: a tail call goes no deeper, another call of a function goes lower.
fn deep_enough(depth: u8, callee: Option<u8>, tailed: bool) -> bool
    ensures { result ≡ depth_holds depth (maybe callee) tailed }
{
    match callee {
        None => true,
        Some(lower) if tailed => lower <= depth,
        Some(lower) => lower < depth,
    }
}

impl Walk<'_> {
    /// Puts the questions about a return.
    pub(crate) fn leave(&self, marks: &mut Marks, place: usize, values: Values) -> Result<(), Fault>
        ensures { (vs : List Placed) → Holds self.now.window values vs → result ≡ leaving self.now.window.function place (context marks.old) vs (items self.now.record.results) }
    {
        if usize::from(values.count) != self.record.results.len() {
            return Err(self.fault(Question::Counts, place));
        }
        self.give_all(marks, values, &self.record.results)?;
        if !marks.all_spent() {
            return Err(self.fault(Question::OwnersSpent, place));
        }
        Ok(())
    }

    /// Puts the questions about a call's results, once its arguments are given, and binds them.
    fn bind(&self, marks: &mut Marks, ifs: u8, call: Call, callee: &Callee) -> Result<(), Fault>
        requires { length (items callee.now.results) ≡ call.results }
        ensures { (t : Body × ℕ) → read_in self.now.window body_at ifs call.next ≡ Ok t → changed result marks.new ≡ binding self.now.window.function call.place self.now.record.depth (maybe callee.now.depth) call.results t.0 (items callee.now.results) (context marks.old) }
    {
        let bound = marks.entries.len();
        if bound + usize::from(call.results) > MOST_VARIABLES {
            return Err(self.fault(Question::Room, call.place));
        }
        let tailed = self.is_tail(ifs, bound, call.results, call.next);
        if !deep_enough(self.record.depth, callee.depth, tailed) {
            return Err(self.fault(Question::DepthRule, call.place));
        }
        marks.bind_all(&callee.results);
        Ok(())
    }

    /// Puts the questions about a call.
    pub(crate) fn enter(&self, marks: &mut Marks, ifs: u8, call: Call) -> Result<(), Fault>
        ensures { ForProgram self.now.table (λ P. (vs : List Placed) (t : Body × ℕ) → Holds self.now.window call.arguments vs → read_in self.now.window body_at ifs call.next ≡ Ok t → changed result marks.new ≡ entering P self.now.window.function call.place self.now.record.depth (context marks.old) call.operation vs call.results t.0) }
    {
        let Some(callee) = self.table.callee(call.operation) else {
            return Err(self.fault(Question::Callee, call.place));
        };
        let arguments = usize::from(call.arguments.count);
        let results = usize::from(call.results);
        if arguments != callee.params.len() || results != callee.results.len() {
            return Err(self.fault(Question::Counts, call.place));
        }
        self.give_all(marks, call.arguments, &callee.params)?;
        self.bind(marks, ifs, call, &callee)
    }
}

//! What a thread does next at a call of an operation of the language.
ghost use Rattle.std.specs.Prelude.{◌≡◌, ◌≢◌, ℕ, not, ◌&&◌, ◌==◌};
ghost use Rattle.typing.specs.Signatures.{queue as has};
ghost use Rattle.code.specs.Copies.{program_of};
ghost use Rattle.reader.specs.declared.operations.Operation.TheVariants as o;
ghost use Rattle.machine.specs.States.{state_of, Fit};
ghost use Rattle.machine.specs.Moves.{Serves};

use super::Memory;
use super::outside::{kill, read, update};
use crate::computing::{bind, compared, compute, connected, go, spend};
use crate::moves::Move;
use crate::values::{alias, integer, operands, owner};
use frames::frame::Frame;
use reader::operations::Operation;
use reader::values::Values;
use rules::outcomes::Outcome;
use store::Store;

/// The queue that only the outside fills.
const RECEIVE: u8 = 0;

/// The queue that only the outside empties.
const TRANSMIT: u8 = 1;

impl Memory {
    /// Whether a thread can put packets into a queue of that number.
    fn fills(&self, queue: u8) -> bool
        ensures { result ≡ (has (program_of self.now.code) queue && not (queue == 0)) }
    {
        self.has_queue(queue) && queue != RECEIVE
    }

    /// Whether a thread can take packets out of it.
    fn empties(&self, queue: u8) -> bool
        ensures { result ≡ (has (program_of self.now.code) queue && not (queue == 1)) }
    {
        self.has_queue(queue) && queue != TRANSMIT
    }

    /// A new packet.
    fn new_call<S: Store>(
        &self,
        store: &S,
        thread: u8,
        top: &Frame,
        arguments: Values,
    ) -> Result<Move, Outcome>
        requires { Fit (state_of self.now (S.meaning store.now)) thread }
        ensures { Serves self.now.code (state_of self.now (S.meaning store.now)) thread top.now Operation.New arguments result }
    {
        let ([size], next) = operands::<1>(&self.code, arguments)?;
        let size = integer(&top.variables, size)?;
        bind(next, self.new_packet(store, thread, size))
    }

    /// The owner of a packet is given, and the packet is dropped.
    fn kill_call<S: Store>(
        &self,
        store: &S,
        top: &Frame,
        arguments: Values,
    ) -> Result<Move, Outcome>
        ensures { (t : ℕ) → Serves self.now.code (state_of self.now (S.meaning store.now)) t top.now Operation.Kill arguments result }
    {
        let ([packet], next) = operands::<1>(&self.code, arguments)?;
        let (variable, name) = owner(&top.variables, packet)?;
        spend(next, variable, kill(store, name))
    }

    /// A byte of a packet.
    fn read_call<S: Store>(
        &self,
        store: &S,
        top: &Frame,
        arguments: Values,
    ) -> Result<Move, Outcome>
        ensures { (t : ℕ) → Serves self.now.code (state_of self.now (S.meaning store.now)) t top.now Operation.Read arguments result }
    {
        let ([packet, offset], next) = operands::<2>(&self.code, arguments)?;
        let name = alias(&top.variables, packet)?;
        let offset = integer(&top.variables, offset)?;
        bind(next, read(store, name, offset))
    }

    /// A byte of a packet becomes another.
    fn update_call<S: Store>(
        &self,
        store: &S,
        top: &Frame,
        arguments: Values,
    ) -> Result<Move, Outcome>
        ensures { (t : ℕ) → Serves self.now.code (state_of self.now (S.meaning store.now)) t top.now Operation.Update arguments result }
    {
        let ([packet, offset, number], next) = operands::<3>(&self.code, arguments)?;
        let name = alias(&top.variables, packet)?;
        let offset = integer(&top.variables, offset)?;
        let number = integer(&top.variables, number)?;
        go(next, update(store, name, offset, number))
    }

    /// The owner of a packet is given, and its name joins a queue.
    fn enq_call<S: Store>(
        &self,
        store: &S,
        queue: u8,
        top: &Frame,
        arguments: Values,
    ) -> Result<Move, Outcome>
        ensures { (t : ℕ) → Serves self.now.code (state_of self.now (S.meaning store.now)) t top.now (Operation.Enq queue) arguments result }
    {
        if !self.fills(queue) {
            return Err(Outcome::Stuck);
        }
        let ([packet], next) = operands::<1>(&self.code, arguments)?;
        let (variable, name) = owner(&top.variables, packet)?;
        spend(next, variable, self.put(queue, name))
    }

    /// The oldest packet of a queue is handed to the thread.
    fn deq_call<S: Store>(
        &self,
        store: &S,
        queue: u8,
        top: &Frame,
        arguments: Values,
    ) -> Result<Move, Outcome>
        ensures { (t : ℕ) → Serves self.now.code (state_of self.now (S.meaning store.now)) t top.now (Operation.Deq queue) arguments result }
    {
        if !self.empties(queue) {
            return Err(Outcome::Stuck);
        }
        let (_, next) = operands::<0>(&self.code, arguments)?;
        bind(next, self.take(store, queue))
    }

    /// Any of them.
    pub(crate) fn operate<S: Store>(
        &self,
        store: &S,
        thread: u8,
        top: &Frame,
        operation: Operation,
        arguments: Values,
    ) -> Result<Move, Outcome>
        requires { Fit (state_of self.now (S.meaning store.now)) thread }
        ensures { ((g : ℕ) → operation ≢ o.Function g) → Serves self.now.code (state_of self.now (S.meaning store.now)) thread top.now operation arguments result }
    {
        match operation {
            Operation::Compute(operation) => compute(&self.code, top, operation, arguments),
            Operation::Compare(operation) => compared(&self.code, top, operation, arguments),
            Operation::Connect(operation) => connected(&self.code, top, operation, arguments),
            Operation::New => self.new_call(store, thread, top, arguments),
            Operation::Kill => self.kill_call(store, top, arguments),
            Operation::Read => self.read_call(store, top, arguments),
            Operation::Update => self.update_call(store, top, arguments),
            Operation::Enq(queue) => self.enq_call(store, queue, top, arguments),
            Operation::Deq(queue) => self.deq_call(store, queue, top, arguments),
            // Apart, as the check knows of either what it is.
            Operation::Function(_) => Err(Outcome::Stuck),
            Operation::Unknown(..) => Err(Outcome::Stuck),
        }
    }
}

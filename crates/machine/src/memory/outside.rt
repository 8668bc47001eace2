//! What the operations of the language do outside a thread.
ghost use Rattle.std.specs.Prelude.{◌≡◌, ◌↔◌, ℕ, List, [], ◌∷◌, IsTrue};
ghost use Rattle.std.proofs.Math.Option.{some};
ghost use Rattle.reader.specs.declared.types.Ty.{Ty};
ghost use Rattle.store.specs.Meaning.{Meaning};
ghost use Rattle.typing.specs.Signatures.{◌⇒◌, signature};
ghost use Rattle.rules.specs.State.{State};
ghost use Rattle.rules.specs.Rules.{RoomFor};
ghost use Rattle.code.specs.Copies.{program_of};
ghost use Rattle.machine.specs.States.{state_of, Fit};
ghost use Rattle.machine.specs.Moves.{alone, bringing, Operated as Happens};

use super::Memory;
use crate::moves::Outside;
use reader::operations::Operation;
use rules::held::Held;
use rules::outcomes::{Cause, Outcome};
use store::{Name, Question, Store};

/// What an operation does outside and what it gives, or why it does not happen.
pub(crate) type Given = Result<(Outside, Held), Outcome>;

/// Likewise of an operation that gives nothing.
pub(crate) type Done = Result<Outside, Outcome>;

/// The most names that wait in a queue.
pub(crate) const QUEUE_LIMIT: usize = 16;

/// The operation alone.
#[inline(always)]
pub(crate) fn gives(held: Held) -> Given
    ensures { result ≡ Ok (Outside.Nothing, held) }
{
    Ok((Outside::Nothing, held))
}

/// A packet is dropped.
pub(crate) fn kill<S: Store>(store: &S, name: Name) -> Done
    ensures { (s : State) (t : ℕ) → s.store ≡ S.meaning store.now → Happens s t Operation.Kill (Held.Owner name ∷ []) (alone result) }
{
    match store.size(name) {
        Ok(_) => Ok(Outside::Discard(name)),
        Err(_) => Err(Outcome::Stuck),
    }
}

/// A byte of a packet; 0 where the offset lies outside.
#[inline(always)]
pub(crate) fn read<S: Store>(store: &S, name: Name, offset: u32) -> Given
    ensures { (s : State) (t : ℕ) → s.store ≡ S.meaning store.now → Happens s t Operation.Read (Held.Alias name ∷ Held.Integer offset ∷ []) (bringing result) }
{
    match store.read(name, offset as usize) {
        Ok(byte) => gives(Held::Integer(u32::from(byte))),
        Err(Question::Inside) => gives(Held::Integer(0)),
        Err(_) => Err(Outcome::Stuck),
    }
}

/// A byte of a packet becomes a number modulo 256; nothing happens where the offset lies outside.
#[inline(always)]
pub(crate) fn update<S: Store>(store: &S, name: Name, offset: u32, number: u32) -> Done
    ensures { (s : State) (t : ℕ) → s.store ≡ S.meaning store.now → Happens s t Operation.Update (Held.Alias name ∷ Held.Integer offset ∷ Held.Integer number ∷ []) (alone result) }
{
    let offset = offset as usize;
    match store.size(name) {
        Ok(size) if offset < size => {
            let byte = (number % 256) as u8;
            Ok(Outside::Write { name, offset, byte })
        }
        Ok(_) => Ok(Outside::Nothing),
        Err(_) => Err(Outcome::Stuck),
    }
}

/// Whether a store has room for a packet of that size.
pub(crate) fn has_room<S: Store>(store: &S, size: usize) -> bool
    ensures { IsTrue result ↔ RoomFor (S.meaning store.now) size }
{
    store.need(size) <= store.capacity() - store.used()
}

impl Memory {
    /// A new packet, of no more than the largest size.
    pub(crate) fn new_packet<S: Store>(&self, store: &S, thread: u8, size: u32) -> Given
        requires { Fit (state_of self.now (S.meaning store.now)) thread }
        ensures { Happens (state_of self.now (S.meaning store.now)) thread Operation.New (Held.Integer size ∷ []) (bringing result) }
    {
        let count = self.made(thread);
        if count >= self.limit {
            return Err(Outcome::Waits(Cause::NoName));
        }
        let size = (size as usize).min(store.largest());
        if !has_room(store, size) {
            return Err(Outcome::Waits(Cause::NoRoom));
        }
        let name = Name {
            maker: thread,
            count,
        };
        Ok((Outside::Make(size), Held::Owner(name)))
    }

    /// The oldest name of a queue.
    pub(crate) fn take<S: Store>(&self, store: &S, queue: u8) -> Given
        ensures { (t : ℕ) → Happens (state_of self.now (S.meaning store.now)) t (Operation.Deq queue) [] (bringing result) }
    {
        let Some(name) = self.queue(queue).first().copied() else {
            return Err(Outcome::Waits(Cause::EmptyQueue));
        };
        match store.size(name) {
            Ok(_) => Ok((Outside::Take { queue, name }, Held::Owner(name))),
            Err(_) => Err(Outcome::Stuck),
        }
    }

    /// A name for the end of a queue of the program.
    pub(crate) fn put(&self, queue: u8, name: Name) -> Done
        ensures { (m : Meaning) (t : ℕ) (ρs σs : List Ty) → signature (program_of self.now.code) (Operation.Enq queue) ≡ some (ρs ⇒ σs)
            → Happens (state_of self.now m) t (Operation.Enq queue) (Held.Owner name ∷ []) (alone result) }
    {
        if self.queue(queue).len() >= QUEUE_LIMIT {
            return Err(Outcome::Waits(Cause::FullQueue));
        }
        Ok(Outside::Put { queue, name })
    }
}

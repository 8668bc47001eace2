//! What a move leaves.
ghost use Rattle.std.specs.Prelude.{◌≡◌, ◌≤◌};
ghost use Rattle.store.specs.Meaning.{Meaning};
ghost use Rattle.rules.specs.State.{thread as thread_in, with_thread, affected, apply};
ghost use Rattle.code.specs.Copies.{bytes_of, program_of};
ghost use Rattle.machine.specs.States.{state_of};
ghost use Rattle.machine.specs.Moves.{changed, effect_of, Roomy, Allowed};

use super::Memory;
use crate::moves::{Change, Draft, Move, Outside};
use store::{Name, Store};

impl Memory {
    /// Changes the frames of a thread.
    fn change(&mut self, thread: u8, change: Change, draft: &Draft)
        requires from { 1 ≤ thread }
        requires to { thread ≤ (program_of self.old.code).threads }
        requires roomy { (m : Meaning) → Roomy change (thread_in (state_of self.old m) thread) }
        ensures state { (m : Meaning) → let s = state_of self.old m in state_of self.new m ≡ with_thread thread (changed (bytes_of self.old.code) draft.now change (thread_in s thread)) s }
        ensures code { self.new.code ≡ self.old.code }
    {
        // Taken apart first, here and below: no element with ghost fields is lent through a struct that has some.
        let Memory { threads, .. } = self;
        change.apply(draft, &mut threads[usize::from(thread) - 1]);
    }

    /// Does what a move does outside its thread.
    fn act<S: Store>(&mut self, store: &mut S, thread: u8, outside: Outside)
        requires to { thread ≤ (program_of self.old.code).threads }
        requires allowed { Allowed (state_of self.old (S.meaning store.old)) thread outside }
        ensures state { let s = state_of self.old (S.meaning store.old) in state_of self.new (S.meaning store.new) ≡ affected (effect_of s thread outside) s }
        ensures code { self.new.code ≡ self.old.code }
    {
        match outside {
            Outside::Nothing => {}
            Outside::Make(size) => self.make(store, thread, size),
            Outside::Discard(name) => store.discard(name).unwrap(),
            Outside::Write { name, offset, byte } => store.write(name, offset, byte).unwrap(),
            Outside::Take { queue, name } => {
                let Memory { queues, .. } = self;
                queues[usize::from(queue)].remove_first();
                store.hand(name, thread).unwrap();
            }
            Outside::Put { queue, name } => {
                let Memory { queues, .. } = self;
                queues[usize::from(queue)].push(name).unwrap();
            }
        }
    }

    /// Makes a maker's next packet, of zeros.
    pub(crate) fn make<S: Store>(&mut self, store: &mut S, maker: u8, size: usize)
        requires to { maker ≤ (program_of self.old.code).threads }
        requires allowed { Allowed (state_of self.old (S.meaning store.old)) maker (Outside.Make size) }
        ensures state { let s = state_of self.old (S.meaning store.old) in state_of self.new (S.meaning store.new) ≡ affected (effect_of s maker (Outside.Make size)) s }
        ensures code { self.new.code ≡ self.old.code }
    {
        let index = usize::from(maker);
        let count = self.counts[index];
        store.make(Name { maker, count }, size).unwrap();
        self.counts[index] = count + 1;
    }

    /// Does what a thread does next.
    pub(crate) fn perform<S: Store>(&mut self, store: &mut S, thread: u8, next: Move, draft: &Draft)
        requires from { 1 ≤ thread }
        requires to { thread ≤ (program_of self.old.code).threads }
        requires allowed { Allowed (state_of self.old (S.meaning store.old)) thread next.outside }
        requires roomy { Roomy next.change (thread_in (state_of self.old (S.meaning store.old)) thread) }
        ensures state { let s = state_of self.old (S.meaning store.old) in state_of self.new (S.meaning store.new) ≡ apply thread (changed (bytes_of self.old.code) draft.now next.change (thread_in s thread)) (effect_of s thread next.outside) s }
        ensures code { self.new.code ≡ self.old.code }
    {
        self.act(store, thread, next.outside);
        self.change(thread, next.change, draft);
    }
}

//! Packets that come and go.
ghost use Rattle.std.specs.Prelude.{◌≡◌, OnErr};
ghost use Rattle.rules.specs.Calls.{arrive as to_bring, to_arrive, collect as to_fetch, to_collect, Does};
ghost use Rattle.rules.specs.Promises.{Promised};
ghost use Rattle.machine.specs.States.{machine_of};

use super::Machine;
use crate::memory::outside::{QUEUE_LIMIT, has_room};
use rules::questions::Question;
use store::Store;

impl<S: Store> Machine<S> {
    /// Makes the network's next packet, with these bytes, and puts it at the end of `receive`.
    pub fn arrive(&mut self, bytes: &[u8]) -> Result<(), Question>
        ensures does { Does (machine_of self.old.memory (S.meaning self.old.store)) (to_bring bytes.now) (to_arrive result) (machine_of self.new.memory (S.meaning self.new.store)) }
        ensures promise { ∥ Promised (machine_of self.new.memory (S.meaning self.new.store)) ∥₁ }
        ensures denied { OnErr result ((self.new.memory ≡ self.old.memory) × (self.new.store ≡ self.old.store)) }
    {
        let Some(memory) = &mut self.memory else {
            return Err(Question::Loaded);
        };
        if bytes.len() > self.store.largest() {
            return Err(Question::Fits);
        }
        if memory.received().len() >= QUEUE_LIMIT {
            return Err(Question::ReceiveFree);
        }
        if memory.made(0) >= memory.limit() {
            return Err(Question::NameLeft);
        }
        if !has_room(&self.store, bytes.len()) {
            return Err(Question::Room);
        }
        memory.arrive(&mut self.store, bytes);
        Ok(())
    }

    /// Copies the oldest packet of `transmit` to the buffer's start and drops it; its size. The buffer's later bytes stay.
    pub fn collect(&mut self, buffer: &mut [u8]) -> Result<usize, Question>
        ensures does { Does (machine_of self.old.memory (S.meaning self.old.store)) (to_fetch buffer.old) (to_collect result buffer.new) (machine_of self.new.memory (S.meaning self.new.store)) }
        ensures promise { ∥ Promised (machine_of self.new.memory (S.meaning self.new.store)) ∥₁ }
        ensures denied { OnErr result ((self.new.memory ≡ self.old.memory) × (self.new.store ≡ self.old.store)) }
    {
        let Some(memory) = &mut self.memory else {
            return Err(Question::Loaded);
        };
        let Some(name) = memory.sent().first().copied() else {
            return Err(Question::Sent);
        };
        let Ok(size) = self.store.size(name) else {
            return Err(Question::Sent);
        };
        if size > buffer.len() {
            return Err(Question::BufferHolds);
        }
        memory.collect(&mut self.store, name, buffer);
        Ok(size)
    }
}

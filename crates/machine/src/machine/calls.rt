//! The calls of a machine.
ghost use Rattle.std.specs.Prelude.{◌≡◌, OnErr};
ghost use Rattle.rules.specs.Calls.{step as to_make, to_step, ready as to_ask, to_ready, Does};
ghost use Rattle.rules.specs.Promises.{Promised};
ghost use Rattle.machine.specs.States.{machine_of};

use super::Machine;
use rules::outcomes::Outcome;
use rules::questions::Question;
use store::Store;

impl<S: Store> Machine<S> {
    /// Makes a step of a thread.
    pub fn step(&mut self, thread: u8) -> Result<Outcome, Question>
        ensures does { Does (machine_of self.old.memory (S.meaning self.old.store)) (to_make thread) (to_step result) (machine_of self.new.memory (S.meaning self.new.store)) }
        ensures promise { ∥ Promised (machine_of self.new.memory (S.meaning self.new.store)) ∥₁ }
        ensures denied { OnErr result ((self.new.memory ≡ self.old.memory) × (self.new.store ≡ self.old.store)) }
    {
        let Some(memory) = &mut self.memory else {
            return Err(Question::Loaded);
        };
        if !memory.has_thread(thread) {
            return Err(Question::ThreadExists);
        }
        Ok(memory.step(&mut self.store, thread, &mut self.draft))
    }

    /// Names a thread that would advance, if one would.
    pub fn ready(&self) -> Result<Option<u8>, Question>
        ensures does { Does (machine_of self.now.memory (S.meaning self.now.store)) to_ask (to_ready result) (machine_of self.now.memory (S.meaning self.now.store)) }
        ensures promise { ∥ Promised (machine_of self.now.memory (S.meaning self.now.store)) ∥₁ }
    {
        match &self.memory {
            Some(memory) => Ok(memory.ready(&self.store)),
            None => Err(Question::Loaded),
        }
    }
}

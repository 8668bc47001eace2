//! Loading a program.
ghost use Rattle.std.specs.Prelude.{◌≡◌, OnErr};
ghost use Rattle.rules.specs.Calls.{load as to_put, to_load, Does};
ghost use Rattle.rules.specs.Promises.{Promised};
ghost use Rattle.machine.specs.States.{machine_of};

use super::Machine;
use crate::memory::Memory;
use code::copies::Code;
use rules::questions::{Question, Refusal};
use store::Store;

impl<S: Store> Machine<S> {
    /// Loads an accepted program, of which each maker may make as many packets as the limit says. The program is copied.
    pub fn load(&mut self, program: &[u8], limit: u32) -> Result<(), Refusal>
        ensures does { Does (machine_of self.old.memory (S.meaning self.old.store)) (to_put program.now limit) (to_load result) (machine_of self.new.memory (S.meaning self.new.store)) }
        ensures promise { ∥ Promised (machine_of self.new.memory (S.meaning self.new.store)) ∥₁ }
        ensures denied { OnErr result ((self.new.memory ≡ self.old.memory) × (self.new.store ≡ self.old.store)) }
    {
        if self.memory.is_some() {
            return Err(Refusal::Denied(Question::NoneLoaded));
        }
        if limit == 0 {
            return Err(Refusal::Denied(Question::SomeNames));
        }
        if self.store.used() > 0 {
            return Err(Refusal::Denied(Question::StoreUnused));
        }
        match Code::of(program) {
            Ok(code) => {
                self.memory = Some(Memory::start(code, limit));
                Ok(())
            }
            Err(fault) => Err(Refusal::Faulty(fault)),
        }
    }
}

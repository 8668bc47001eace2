//! Steps of threads.
ghost use Rattle.std.specs.Prelude.{◌≡◌, ◌≢◌, ℕ, ◌≤◌, IfSome, IfNone};
ghost use Rattle.rules.specs.declared.outcomes.Outcome.{Outcome as Came};
ghost use Rattle.rules.specs.declared.outcomes.Outcome.TheVariants as outcome;
ghost use Rattle.rules.specs.Rules.{Step, WouldAdvance};
ghost use Rattle.code.specs.Copies.{program_of};
ghost use Rattle.machine.specs.States.{state_of, Fit};

use super::Memory;
use crate::moves::Draft;
use rules::outcomes::Outcome;
use store::Store;

impl Memory {
    /// Makes a step of a thread.
    pub(crate) fn step<S: Store>(&mut self, store: &mut S, thread: u8, draft: &mut Draft) -> Outcome
        requires { Fit (state_of self.old (S.meaning store.old)) thread }
        ensures { Step (state_of self.old (S.meaning store.old)) thread result (state_of self.new (S.meaning store.new)) }
    {
        match self.decide(store, thread, draft) {
            Ok(next) => {
                self.perform(store, thread, next, draft);
                Outcome::Advanced
            }
            Err(outcome) => outcome,
        }
    }

    /// The first thread that would advance, if one would.
    pub(crate) fn ready<S: Store>(&self, store: &S) -> Option<u8>
        requires { (t : ℕ) → 1 ≤ t → t ≤ (program_of self.now.code).threads → Fit (state_of self.now (S.meaning store.now)) t }
        ensures some { IfSome result (λ t. WouldAdvance (state_of self.now (S.meaning store.now)) t) }
        ensures none { IfNone result ((t : ℕ) → 1 ≤ t → t ≤ (program_of self.now.code).threads
            → (a : Came) × (a ≢ outcome.Advanced) × Step (state_of self.now (S.meaning store.now)) t a (state_of self.now (S.meaning store.now))) }
    {
        let mut draft = Draft::blank();
        // Not `1..=`: the proof of what holds behind the last thread would have to cite a name of Rattle's own.
        for thread in 1..self.code.header().threads + 1 {
            if let Ok(_) = self.decide(store, thread, &mut draft) {
                return Some(thread);
            }
        }
        None
    }
}

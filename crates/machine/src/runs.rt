//! Whole runs of calls.
ghost use Rattle.rules.specs.Calls.{Does};
ghost use Rattle.rules.specs.Promises.{Promised};
ghost use Rattle.machine.specs.States.{machine_of};
ghost use Rattle.machine.specs.Runs.{call_of, reply_of, Ran};

use crate::calls::{Answer, Call};
use crate::machine::Machine;
use store::Store;

impl<S: Store> Machine<S> {
    /// Makes any one of the five calls.
    pub fn call<const N: usize>(&mut self, call: &Call<N>) -> Answer<N>
        ensures does { Does (machine_of self.old.memory (S.meaning self.old.store)) (call_of call.now) (reply_of result) (machine_of self.new.memory (S.meaning self.new.store)) }
        ensures promise { ∥ Promised (machine_of self.new.memory (S.meaning self.new.store)) ∥₁ }
    {
        match call {
            Call::Load { program, limit } => Answer::Load(self.load(program, *limit)),
            Call::Arrive(bytes) => Answer::Arrive(self.arrive(bytes)),
            Call::Step(thread) => Answer::Step(self.step(*thread)),
            Call::Ready => Answer::Ready(self.ready()),
            Call::Collect(bytes) => {
                let mut buffer = *bytes;
                let size = self.collect(&mut buffer);
                Answer::Collect(size, buffer)
            }
        }
    }
}

/// Makes calls, one after the other, from nothing loaded over a store in any state: as many as there are places for their answers.
/// Over the whole run, after each of its calls, the promise holds.
pub fn run<S: Store, const N: usize>(
    store: S,
    calls: &[Call<N>],
    answers: &mut [Answer<N>],
) -> Machine<S>
    ensures { Ran (S.meaning store) calls.now answers.old answers.new (machine_of result.memory (S.meaning result.store)) }
{
    let mut machine = Machine::new(store);
    for i in 0..calls.len().min(answers.len()) {
        answers[i] = machine.call(&calls[i]);
    }
    machine
}

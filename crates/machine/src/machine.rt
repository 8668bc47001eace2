//! The machine.
ghost use Rattle.std.specs.Prelude.{◌≡◌};
ghost use Rattle.rules.specs.Calls.{unloaded, Reached};
ghost use Rattle.machine.specs.States.{machine_of};

use crate::memory::Memory;
use crate::moves::Draft;
use store::Store;

pub mod calls;
pub mod loading;
pub mod network;
pub mod observers;

/// Runs an accepted program over a packet store, which it owns. It stands where calls have led it from nothing loaded.
#[derive(Drop)]
pub struct Machine<S: Store> {
    memory: Option<Memory>,
    store: S,
    /// Where a step writes its frames. It tells nothing between steps, and is kept so that none has to clear one.
    draft: Draft,
    ghost reached: { ∥ Reached (machine_of memory (S.meaning store)) ∥₁ },
}

impl<S: Store> Machine<S> {
    /// A machine in which nothing is loaded, over a store in any state.
    pub fn new(store: S) -> Machine<S>
        ensures { machine_of result.memory (S.meaning result.store) ≡ unloaded (S.meaning store) }
    {
        // Asked for what a store promises of its needs: each packet takes a unit at least.
        let _used = store.used();
        Machine {
            memory: None,
            store,
            draft: Draft::blank(),
        }
    }
}

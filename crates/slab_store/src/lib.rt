//! A store of small packets, each in a slot of its own.
#![tactic(auto)]

mod slot;
mod slots;

pub use slot::Slot;
pub use slots::{Slab, Slots, slab_over};

//! The machine that runs accepted programs over any packet store.
#![tactic(auto)]

mod arithmetic;
pub mod calls;
mod computing;
pub mod machine;
mod memory;
mod moves;
mod nodes;
pub mod runs;
mod values;

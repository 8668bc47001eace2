//! The store of kind 2: packets in chains of cells, which numbers join, over memory that a caller lends.

#![tactic(auto)]

mod cells;
mod chain;
mod head;
mod links;

pub use cells::Cells;
pub use chain::{Chain, chain_over};
pub use head::Head;

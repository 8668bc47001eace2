//! A store over two others, chosen by the holder of a packet.

#![tactic(auto)]

mod calls;
mod carry;
mod split;

pub use split::Split;

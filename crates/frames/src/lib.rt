//! The frames of threads, and the values that they give.
#![tactic(auto)]

pub mod frame;
pub mod giving;
pub mod thread;

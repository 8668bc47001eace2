//! Where the records of a program stand, and what they say: found once, so that a call's signature is found in constant time.
#![tactic(auto)]

pub mod callees;
pub mod tables;

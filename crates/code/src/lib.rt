//! A machine's copy of a program: its bytes, its functions, and what each place shows.
#![tactic(auto)]

pub mod copies;
pub mod functions;
pub mod sights;

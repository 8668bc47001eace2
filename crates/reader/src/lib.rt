//! Reading encoded programs: fields, values, nodes, bodies, records and whole programs.
//! Everything is read from the caller's bytes, which are never copied.
#![tactic(auto)]

pub mod bodies;
pub mod faults;
pub mod fields;
pub mod headers;
pub mod nodes;
pub mod operations;
pub mod programs;
pub mod questions;
pub mod readers;
pub mod types;
pub mod values;
pub mod windows;

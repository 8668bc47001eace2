//! Short rows of plain values, in memory of their own.
#![tactic(auto)]

pub mod row;

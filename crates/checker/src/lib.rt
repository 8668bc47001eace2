//! The check of a program: three layers of questions, the first no decides.
#![tactic(auto)]

mod asks;
mod bodies;
mod functions;
pub mod layers;
mod lists;
mod marks;
mod nodes;
pub mod variables;
mod walks;

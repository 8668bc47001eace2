//! Hexadecimal text: two digits a byte, white space anywhere, `#` starts a comment that runs to the end of its line.
#![tactic(auto)]

pub mod symbols;
pub mod text;

//! `paclang` again, for the gate: a crate has one run there, and this one's is of `script`.
#![tactic(auto)]

use std::io;
use std::process::ExitCode;

fn main(rt: HostRuntime) -> io::Result<ExitCode> {
    commands::run(&rt)
}

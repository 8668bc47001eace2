//! The program `paclang`; its commands are in the library `commands`.
#![tactic(auto)]

use std::io;
use std::process::ExitCode;

fn main(rt: HostRuntime) -> io::Result<ExitCode> {
    commands::run(&rt)
}

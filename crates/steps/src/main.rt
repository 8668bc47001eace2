//! The program `steps`; its command is in the library `commands`.
#![tactic(auto)]

use std::io;
use std::process::ExitCode;

fn main(rt: HostRuntime) -> io::Result<ExitCode> {
    commands::run_steps(&rt)
}

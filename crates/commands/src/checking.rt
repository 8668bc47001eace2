//! `paclang check`: one program, each action on a line of its own.
use crate::denial::deny;
use crate::loading::load;
use checker::layers::check;
use std::io;
use std::process::ExitCode;

/// Checks the program in a file: success where it is accepted.
pub(crate) fn check_file(rt: &HostRuntime, path: &str) -> io::Result<ExitCode> {
    let Some(program) = load(rt, path)? else {
        return Ok(ExitCode::FAILURE);
    };
    println!(rt; "read {path}: {} bytes", program.len())?;
    println!(rt; "layer 1: the bytes")?;
    match reader::programs::read(&program) {
        Ok(header) => println!(rt; "found: {header}")?,
        Err(fault) => return deny(rt, fault),
    }
    println!(rt; "layers 2 and 3: the signatures, then the bodies")?;
    if let Err(fault) = check(&program) {
        return deny(rt, fault);
    }
    println!(rt; "accepted")?;
    Ok(ExitCode::SUCCESS)
}

//! A denial, as both commands on a file end with it.
use reader::faults::Fault;
use std::io;
use std::process::ExitCode;

/// Writes a denial, with its question in words.
pub(crate) fn deny(rt: &HostRuntime, fault: Fault) -> io::Result<ExitCode> {
    println!(rt; "denied: {fault}")?;
    let question = fault.question;
    println!(rt; "question {}: {question}", question.number())?;
    Ok(ExitCode::FAILURE)
}

//! The commands of `paclang`, for programs that are a thin `main` over them.
#![tactic(auto)]

mod answers;
mod calls;
mod checking;
mod denial;
mod judging;
mod lending;
mod lines;
mod listing;
mod loading;
mod packets;
mod refusals;
mod replies;
mod requests;
mod running;
mod scripts;
mod sessions;
mod shapes;
mod showing;
mod states;
mod stepping;
mod tasks;
mod timing;
mod words;

use crate::running::Kind;
use crate::timing::Trial;
use std::process::ExitCode;
use std::{env, io};

const USAGE: &str =
    "usage: paclang check FILE | verdicts | disassemble FILE | run FILE --store slab|chain|split | stores | script | time-stores KIND PACKETS CALLS";

/// Runs the command that the arguments name; a failure where the answer is a denial or the arguments are wrong, and where
/// input or output fails, with a line on standard error. What is written no clause can say.
pub fn run(rt: &HostRuntime) -> io::Result<ExitCode> {
    dispatch(rt).or_else(|error| {
        eprintln!(rt; "paclang: {error}")?;
        Ok(ExitCode::FAILURE)
    })
}

/// Steps the program in the file that the first argument names, as many times as the second one says: a command of its own, so
/// that the program that has it is compiled for one kind of store. Failures are as above.
pub fn run_steps(rt: &HostRuntime) -> io::Result<ExitCode> {
    dispatch_steps(rt).or_else(|error| {
        eprintln!(rt; "steps: {error}")?;
        Ok(ExitCode::FAILURE)
    })
}

fn dispatch_steps(rt: &HostRuntime) -> io::Result<ExitCode> {
    let mut arguments = env::args(rt)?.skip(1);
    let (file, count) = (arguments.next(), arguments.next());
    if let (Some(file), Some(count)) = (file, count) {
        if let Ok(count) = count.parse() {
            return stepping::step_file(rt, &file, count);
        }
    }
    eprintln!(rt; "usage: steps FILE COUNT")?;
    Ok(ExitCode::FAILURE)
}

fn dispatch(rt: &HostRuntime) -> io::Result<ExitCode> {
    let heap = rt.alloc();
    let arguments: Vec<String> = env::args(rt)?.skip(1).collect(heap)?;
    let words: Vec<&str> = arguments.iter().map(|word| word.as_str()).collect(heap)?;
    match words.as_slice() {
        ["check", file] => checking::check_file(rt, file),
        ["verdicts"] => judging::judge_lines(rt),
        ["disassemble", file] => listing::list_file(rt, file),
        ["run", file, "--store", kind] => match Kind::read(kind) {
            Some(kind) => running::run_file(rt, file, kind),
            None => refuse(rt),
        },
        ["stores"] => showing::show_stores(rt),
        ["script"] => scripts::play_input(rt),
        ["time-stores", kind, packets, calls] => match Trial::read(kind, packets, calls) {
            Some(trial) => trial.run(rt),
            None => refuse(rt),
        },
        _ => refuse(rt),
    }
}

/// Writes how the command is used.
fn refuse(rt: &HostRuntime) -> io::Result<ExitCode> {
    eprintln!(rt; "paclang: {USAGE}")?;
    Ok(ExitCode::FAILURE)
}

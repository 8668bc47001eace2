//! Many steps of a program's threads in turn, to be timed from outside.
use crate::denial::deny;
use crate::lending::LEFT_OVER;
use crate::loading::load;
use machine::machine::Machine;
use rules::outcomes::Outcome;
use rules::questions::Refusal;
use slab_store::{Slot, slab_over};
use std::io;
use std::process::ExitCode;
use store::Store;

/// The store of a program that is stepped.
const SLOTS: usize = 64;

/// Steps the program in a file, and writes what came of the steps.
pub(crate) fn step_file(rt: &HostRuntime, path: &str, count: u64) -> io::Result<ExitCode> {
    let Some(program) = load(rt, path)? else {
        return Ok(ExitCode::FAILURE);
    };
    let heap = rt.alloc();
    let mut memory = vec![in heap; LEFT_OVER; 256 * SLOTS]?;
    let mut slots = vec![in heap; Slot::free(); SLOTS]?;
    match steps(slab_over(&mut memory, &mut slots), &program, count) {
        Ok(
            Tally {
                advances,
                waits,
                ended,
            },
        ) => println!(rt; "advances {advances} waits {waits} ended {ended}")?,
        Err(Refusal::Faulty(fault)) => return deny(rt, fault),
        Err(Refusal::Denied(question)) => {
            println!(rt; "denied: question {}", question.number())?;
            return Ok(ExitCode::FAILURE);
        }
    }
    Ok(ExitCode::SUCCESS)
}

/// How often each came.
#[derive(Debug, Clone, Copy, Default, PartialEq, Eq)]
struct Tally {
    advances: u64,
    waits: u64,
    ended: u64,
}

impl Tally {
    fn count(&mut self, outcome: Outcome) {
        let sort = match outcome {
            Outcome::Advanced => &mut self.advances,
            Outcome::Waits(_) => &mut self.waits,
            Outcome::Ended => &mut self.ended,
            // No granted program comes to this.
            Outcome::Stuck => return,
        };
        *sort = sort.saturating_add(1);
    }
}

/// So many steps of a program, of each thread in turn.
fn steps<S: Store + Drop>(store: S, program: &[u8], count: u64) -> Result<Tally, Refusal> {
    let mut machine = Machine::new(store);
    machine.load(program, u32::MAX)?;
    let threads = machine.header().map_or(0, |header| header.threads);
    let mut tally = Tally::default();
    let mut thread = 1;
    for _ in 0..count {
        if let Ok(outcome) = machine.step(thread) {
            tally.count(outcome);
        }
        thread = if thread < threads { thread + 1 } else { 1 };
    }
    Ok(tally)
}

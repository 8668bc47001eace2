//! The state of a machine, as text.
ghost use Rattle.std.specs.Prelude.{Some};
ghost use Rattle.commands.specs.States.{held_text};

use crate::packets::{Dotted, write_packets};
use frames::frame::Frame;
use frames::thread::Thread;
use machine::machine::Machine;
use reader::headers::Header;
use rules::held::Held;
use std::alloc::{AllocError, Global};
use std::fmt;
use store::{Name, Store};

/// What a variable holds: an integer, a truth value, the name of an owner or of an alias, or nothing.
#[derive(Debug, Clone, Copy, PartialEq, Eq)]
struct Content(Held);

impl fmt::Display for Content {
    ghost output = { λ content. Some (held_text content.0) };

    fn fmt<W: fmt::Write>(&self, f: &mut fmt::Formatter<W>) -> fmt::Result {
        match self.0 {
            Held::Nothing => write!(f, "-"),
            Held::Integer(integer) => write!(f, "i{integer}"),
            Held::Truth(false) => write!(f, "b0"),
            Held::Truth(true) => write!(f, "b1"),
            Held::Owner(name) => write!(f, "o{}", Dotted(name)),
            Held::Alias(name) => write!(f, "a{}", Dotted(name)),
        }
    }
}

/// Writes the whole state of a machine. The packets are of the names given where nothing is loaded, and else of all that its makers made.
pub(crate) fn write_state<S: Store>(
    heap: Global,
    text: &mut String,
    machine: &Machine<S>,
    names: &[Name],
) -> Result<(), AllocError> {
    let Some(header) = machine.header() else {
        write!(text, "unloaded P=")?;
        return write_packets(text, machine.store(), names);
    };
    write_threads(text, machine, header)?;
    write_queues(text, machine, header)?;
    write_counts(text, machine, header)?;
    let limit = machine.limit().unwrap_or(0);
    write!(text, "L={limit} P=")?;
    write_packets(text, machine.store(), &made_names(heap, machine, header)?)
}

/// Writes the threads, each with a blank behind it.
fn write_threads<S: Store>(
    text: &mut String,
    machine: &Machine<S>,
    header: Header,
) -> Result<(), AllocError> {
    for number in 1..=header.threads {
        write!(text, "T{number}=")?;
        match machine.thread(number) {
            Some(Thread::Running { top, below }) => {
                for frame in below.as_slice() {
                    write_frame(text, frame)?;
                    text.push(';')?;
                }
                write_frame(text, top)?;
            }
            _ => text.push_str("ended")?,
        }
        text.push(' ')?;
    }
    Ok(())
}

/// Writes a frame: its function, the place of its node, and what its variables hold.
fn write_frame(text: &mut String, frame: &Frame) -> Result<(), AllocError> {
    let function = frame.function;
    let place = frame.place;
    write!(text, "{function}@{place}[")?;
    let mut comma = "";
    for held in frame.variables.as_slice() {
        write!(text, "{comma}{}", Content(*held))?;
        comma = ",";
    }
    text.push(']')
}

/// Writes the queues, each with a blank behind it.
fn write_queues<S: Store>(
    text: &mut String,
    machine: &Machine<S>,
    header: Header,
) -> Result<(), AllocError> {
    for number in 0..=header.queues.saturating_add(1) {
        write!(text, "Q{number}=")?;
        let waiting = machine.queue(number).unwrap_or(&[]);
        if waiting.is_empty() {
            text.push('-')?;
        }
        let mut comma = "";
        for name in waiting {
            write!(text, "{comma}{}", Dotted(*name))?;
            comma = ",";
        }
        text.push(' ')?;
    }
    Ok(())
}

/// Writes how many packets each maker made, with a blank behind.
fn write_counts<S: Store>(
    text: &mut String,
    machine: &Machine<S>,
    header: Header,
) -> Result<(), AllocError> {
    let mut mark = "C=";
    for maker in 0..=header.threads {
        let made = machine.made(maker).unwrap_or(0);
        write!(text, "{mark}{made}")?;
        mark = ",";
    }
    text.push(' ')
}

/// The names of all packets that were made, in their order, those that are not alive any more too.
fn made_names<S: Store>(
    heap: Global,
    machine: &Machine<S>,
    header: Header,
) -> Result<Vec<Name>, AllocError> {
    let mut names = Vec::new(heap);
    for maker in 0..=header.threads {
        for count in 0..machine.made(maker).unwrap_or(0) {
            names.push(Name { maker, count })?;
        }
    }
    Ok(names)
}

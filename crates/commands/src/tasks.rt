//! A program at work: packets arrive, threads that are ready go on, packets are collected.
ghost use Rattle.std.specs.Prelude.{IfOk};
ghost use Rattle.rules.specs.Calls.{Does};
ghost use Rattle.machine.specs.States.{machine_of};
ghost use Rattle.machine.specs.Runs.{call_of, reply_of};

use crate::lending::{LEFT_OVER, Visitor};
use crate::packets::write_hex;
use crate::replies::Reply;
use machine::calls;
use machine::machine::Machine;
use reader::nodes::Node;
use reader::windows::{OUTSIDE, Window};
use rules::outcomes::Outcome;
use std::alloc::{AllocError, Global};
use std::fmt;
use store::Store;

/// How large the buffers of collects are: as the largest packet.
const ROOM: usize = 1024;

pub(crate) type Call<'a> = calls::Call<'a, ROOM>;

pub(crate) type Answer = calls::Answer<ROOM>;

/// How many packets each maker may make.
const LIMIT: u32 = 1000;

/// How many times it goes on at most: not each program comes to have nothing to do.
const MOST: u32 = 2000;

/// A program, and what comes from the network.
#[derive(Drop)]
pub(crate) struct Task<'a> {
    pub(crate) heap: Global,
    pub(crate) program: &'a [u8],
    pub(crate) packets: &'a [[u8; 6]],
}

/// The calls that were made, their answers, and what is written of them.
#[derive(Drop)]
pub(crate) struct Record<'a> {
    pub(crate) text: String,
    pub(crate) calls: Vec<Call<'a>>,
    pub(crate) answers: Vec<Answer>,
}

impl<'a> Visitor for Task<'a> {
    type Output = Record<'a>;

    fn visit<S: Store + Drop>(self, store: S) -> Result<Record<'a>, AllocError> {
        let Task {
            heap,
            program,
            packets,
        } = self;
        let mut work = Work {
            machine: Machine::new(store),
            program,
            record: Record {
                text: String::new(heap),
                calls: Vec::new(heap),
                answers: Vec::new(heap),
            },
        };
        if work.begin(packets)? {
            work.finish()?;
        }
        let Work { record, .. } = work;
        Ok(record)
    }
}

/// A machine at work on a program.
#[derive(Drop)]
struct Work<'a, S: Store> {
    machine: Machine<S>,
    program: &'a [u8],
    record: Record<'a>,
}

impl<'a, S: Store> Work<'a, S> {
    /// Makes a call, and keeps it.
    fn make(&mut self, call: Call<'a>) -> Result<Answer, AllocError>
        ensures { IfOk result (λ answer. Does (machine_of self.old.machine.memory (S.meaning self.old.machine.store)) (call_of call.entry) (reply_of answer) (machine_of self.new.machine.memory (S.meaning self.new.machine.store))) }
    {
        let answer = self.machine.call(&call);
        self.record.calls.push(call)?;
        self.record.answers.push(answer)?;
        Ok(answer)
    }

    /// The program is loaded, and then packets arrive. Whether it was granted.
    fn begin(&mut self, packets: &'a [[u8; 6]]) -> Result<bool, AllocError> {
        let program = self.program;
        let answer = self.make(Call::Load {
            program,
            limit: LIMIT,
        })?;
        let size = program.len();
        let reply = Reply::from(answer);
        writeln!(
            self.record.text,
            "load {size} bytes, limit {LIMIT} -> {reply}"
        )?;
        if !matches!(answer, Answer::Load(Ok(()))) {
            return Ok(false);
        }
        for packet in packets {
            let answer = self.make(Call::Arrive(packet))?;
            let reply = Reply::from(answer);
            write!(self.record.text, "arrive ")?;
            write_hex(&mut self.record.text, packet)?;
            writeln!(self.record.text, " -> {reply}")?;
        }
        Ok(true)
    }

    /// Goes on until there is nothing to do, or for so long.
    fn finish(&mut self) -> Result<(), AllocError> {
        for _ in 0..MOST {
            if !self.go_on()? {
                return Ok(());
            }
        }
        writeln!(self.record.text, "stopped while there is something to do")
    }

    /// A thread that is ready makes a step; where none is, a packet is collected. Whether there was anything to do.
    fn go_on(&mut self) -> Result<bool, AllocError> {
        let answer = self.make(Call::Ready)?;
        let reply = Reply::from(answer);
        writeln!(self.record.text, "ready -> {reply}")?;
        match answer {
            Answer::Ready(Ok(Some(thread))) => {
                self.step(thread)?;
                Ok(true)
            }
            Answer::Ready(Ok(None)) => self.collect(),
            _ => Ok(false),
        }
    }

    /// A thread makes a step.
    fn step(&mut self, thread: u8) -> Result<(), AllocError> {
        let standing = self.standing(thread);
        let reply = Reply::from(self.make(Call::Step(thread))?);
        let text = &mut self.record.text;
        write!(text, "step {thread}: ")?;
        if let Some((place, node)) = standing {
            write!(text, "{} at {place}", Deed(node))?;
        }
        writeln!(text, " -> {reply}")
    }

    /// The node at which a thread stands, with its place.
    fn standing(&self, thread: u8) -> Option<(usize, Node)> {
        let top = self.machine.thread(thread)?.top()?;
        let window = Window {
            bytes: self.program,
            function: OUTSIDE,
        };
        let (node, _next) = window.node(0, top.place).ok()?;
        Some((top.place, node))
    }

    /// Collects a packet, if one waits. Whether one did.
    fn collect(&mut self) -> Result<bool, AllocError> {
        let answer = self.make(Call::Collect([LEFT_OVER; ROOM]))?;
        let reply = Reply::from(answer);
        let text = &mut self.record.text;
        write!(text, "collect -> {reply}")?;
        let Answer::Collect(Ok(size), buffer) = answer else {
            writeln!(text, "")?;
            return Ok(false);
        };
        write!(text, ": ")?;
        write_hex(text, &buffer[..size.min(ROOM)])?;
        writeln!(text, "")?;
        Ok(true)
    }
}

/// What a node does, in short.
#[derive(Debug, Clone, Copy, PartialEq, Eq)]
struct Deed(Node);

impl fmt::Display for Deed {
    fn fmt<W: fmt::Write>(&self, f: &mut fmt::Formatter<W>) -> fmt::Result {
        match self.0 {
            Node::Return { .. } => write!(f, "return"),
            Node::Branch { value, .. } => write!(f, "if {}", value.value),
            Node::Call { operation, .. } => write!(f, "call {operation}"),
        }
    }
}

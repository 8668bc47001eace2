//! Calls on a machine, of which a script has one a line.
ghost use Rattle.machine.specs.States.{machine_of};
ghost use Rattle.commands.specs.Requests.{Answers};

use crate::lending::LEFT_OVER;
use crate::packets::write_hex;
use crate::replies::Reply;
use crate::words::Words;
use hex_text::text::decode;
use machine::machine::Machine;
use std::alloc::{AllocError, Global};
use store::Store;

/// A word that spells bytes in hexadecimal, or is a dash for none.
#[derive(Debug, Clone, Copy, PartialEq, Eq)]
pub(crate) struct Spelled<'a>(&'a str);

impl<'a> Spelled<'a> {
    fn read(words: &mut Words<'a>) -> Option<Spelled<'a>> {
        let word = words.word()?;
        // Not by `decode`: there a comment may stand between the digits.
        let digits = word.bytes().all(|byte| byte.is_ascii_hexdigit());
        let spells = digits && !word.is_empty() && word.len() % 2 == 0;
        (spells || word == "-").then_some(Spelled(word))
    }

    fn bytes(self, heap: Global) -> Result<Vec<u8>, AllocError> {
        match self.0 {
            "-" => Ok(Vec::new(heap)),
            // Digits in pairs: only memory can be wanting.
            word => decode(heap, word.as_bytes()).map_err(|_| AllocError),
        }
    }
}

/// A call on a machine, with its arguments.
#[derive(Debug, Clone, Copy, PartialEq, Eq)]
pub(crate) enum Request<'a> {
    Load { program: Spelled<'a>, limit: u32 },
    Arrive(Spelled<'a>),
    Step(u8),
    Ready,
    /// Into a buffer of so many bytes.
    Collect(usize),
}

impl<'a> Request<'a> {
    /// The call that a line's words spell, the first of which is its command.
    pub(crate) fn read(command: &str, words: &mut Words<'a>) -> Option<Request<'a>> {
        Some(match command {
            "load" => Request::Load {
                program: Spelled::read(words)?,
                limit: words.number()?,
            },
            "arrive" => Request::Arrive(Spelled::read(words)?),
            "step" => Request::Step(words.number()?),
            "ready" => Request::Ready,
            _ => return None,
        })
    }

    /// The bytes that go in.
    fn bytes(self, heap: Global) -> Result<Vec<u8>, AllocError> {
        match self {
            Request::Load { program, .. } => program.bytes(heap),
            Request::Arrive(packet) => packet.bytes(heap),
            Request::Step(_) | Request::Ready | Request::Collect(_) => Ok(Vec::new(heap)),
        }
    }

    /// How long the buffer is.
    fn room(self) -> usize {
        match self {
            Request::Collect(room) => room,
            _ => 0,
        }
    }

    /// Makes the call, with the bytes that go in and the buffer for those that come out.
    fn make_on<S: Store>(self, machine: &mut Machine<S>, bytes: &[u8], buffer: &mut [u8]) -> Reply
        ensures { Answers (machine_of machine.old.memory (S.meaning machine.old.store)) self.entry bytes.now buffer.old result buffer.new (machine_of machine.new.memory (S.meaning machine.new.store)) }
    {
        match self {
            Request::Load { limit, .. } => machine.load(bytes, limit).into(),
            Request::Arrive(_) => machine.arrive(bytes).into(),
            Request::Step(thread) => machine.step(thread).into(),
            Request::Ready => machine.ready().into(),
            Request::Collect(_) => machine.collect(buffer).into(),
        }
    }

    /// Makes the call, and writes its answer behind it; behind that of a collect the buffer.
    pub(crate) fn answer<S: Store>(
        self,
        heap: Global,
        text: &mut String,
        machine: &mut Machine<S>,
    ) -> Result<(), AllocError> {
        let bytes = self.bytes(heap)?;
        let mut buffer = vec![in heap; LEFT_OVER; self.room()]?;
        let reply = self.make_on(machine, &bytes, &mut buffer);
        write!(text, " -> {reply}")?;
        if let Request::Collect(_) = self {
            text.push(' ')?;
            write_hex(text, &buffer)?;
        }
        Ok(())
    }
}

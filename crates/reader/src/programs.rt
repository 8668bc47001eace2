//! Records, and whole programs.
ghost use Rattle.std.specs.Prelude.{◌≡◌, length};
ghost use Rattle.reader.specs.Fields.{read_in, placed};
ghost use Rattle.reader.specs.Programs.{signature_at, record_in, record_at, records_at, length_ok, header_at, reading, headed};
ghost use Rattle.reader.specs.Encoding.{ReadsBack, WrittenReads};

use crate::faults::Fault;
use crate::headers::Header;
use crate::questions::Question;
use crate::windows::{OUTSIDE, Window};

impl Window<'_> {
    /// The place after a count and that many types.
    fn signature(&self, place: usize) -> Result<usize, Fault>
        ensures { result ≡ placed (read_in self.now signature_at place) }
    {
        let (count, next) = self.count(place)?;
        self.skip(count, next, Self::ty)
    }

    /// The place after what a record holds, which is the end of the window.
    fn contents(&self, start: usize, place: usize) -> Result<usize, Fault>
        ensures { result ≡ placed (read_in self.now record_in start place) }
    {
        let (_, next) = self.range(Question::DepthLimit, 0, 7, place)?;
        let next = self.signature(next)?;
        let next = self.signature(next)?;
        let next = self.body(0, next)?;
        if next != self.bytes.len() {
            return Err(self.fault(Question::NothingLeft, next));
        }
        Ok(next)
    }

    /// The version and the counts.
    fn header(&self, place: usize) -> Result<(Header, usize), Fault>
        ensures { result ≡ read_in self.now header_at place }
    {
        let (_, next) = self.range(Question::Version, 1, 1, place)?;
        let (threads, next) = self.range(Question::ThreadCount, 1, 8, next)?;
        let (queues, next) = self.range(Question::QueueCount, 0, 6, next)?;
        let (functions, next) = self.range(Question::FunctionCount, threads, 64, next)?;
        Ok((
            Header {
                threads,
                queues,
                functions,
            },
            next,
        ))
    }
}

/// The place after the record of a function.
fn record(program: &[u8], function: u8, place: usize) -> Result<usize, Fault>
    ensures { result ≡ placed (record_at program.now (length program.now) function place) }
{
    let (window, first) = Window::record(program, function, place)?;
    window.contents(place, first)
}

/// The place after `count` records.
#[tactic(auto, using(crate::proofs::Rows::records_more))]
fn records(program: &[u8], count: u8, place: usize) -> Result<usize, Fault>
    ensures { result ≡ placed (records_at program.now (length program.now) count 0 place) }
{
    let mut next = place;
    // By number, which the fault of a record carries.
    for function in 0..count {
        next = record(program, function, next)?;
    }
    Ok(next)
}

/// Whether a program is neither too short nor too long, and its first field counts the rest.
fn has_its_length(program: &[u8]) -> bool
    ensures { result ≡ length_ok program.now }
{
    let length = program.len();
    (2..=4096).contains(&length)
        && usize::from(u16::from_be_bytes([program[0], program[1]])) + 2 == length
}

/// Layer 1 of a program: its counts, or the first fault.
fn whole(program: &[u8]) -> Result<Header, Fault>
    ensures { result ≡ headed (reading program.now) }
{
    if !has_its_length(program) {
        return Err(Fault::new(Question::Length, OUTSIDE, 0));
    }
    let window = Window {
        bytes: program,
        function: OUTSIDE,
    };
    let (header, next) = window.header(2)?;
    let next = records(program, header.functions, next)?;
    if next != program.len() {
        return Err(window.fault(Question::NothingLeft, next));
    }
    Ok(header)
}

/// Puts layer 1 to a program: its counts, or the first fault.
pub fn read(program: &[u8]) -> Result<Header, Fault>
    ensures answer { result ≡ headed (reading program.now) }
    ensures law { ReadsBack program.now }
    ensures written { WrittenReads }
{
    whole(program)
}

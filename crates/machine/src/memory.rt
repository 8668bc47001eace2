//! The memory of a machine that runs a program.
ghost use Rattle.std.specs.Prelude.{◌≡◌, ◌≤◌, length};
ghost use Rattle.code.specs.Copies.{program_of};

use code::copies::Code;
use frames::thread::Thread;
use rows::row::Row;
use store::Name;

pub mod deciding;
pub mod network;
pub mod operating;
pub(crate) mod outside;
pub mod performing;
pub mod reading;
pub mod starting;
pub mod stepping;

/// The program, and where its threads, queues and makers stand. Thread 1 stands first; what lies past the program's counts is unused.
#[derive(Drop)]
pub(crate) struct Memory {
    code: Code,
    threads: [Thread; 8],
    /// The oldest name stands first.
    queues: [Row<Name, 16>; 8],
    /// How many packets each maker made: the network first, then the threads.
    counts: [u32; 9],
    limit: u32,
    ghost eight_threads: { length threads ≡ 8 },
    ghost eight_queues: { length queues ≡ 8 },
    ghost nine_counts: { length counts ≡ 9 },
    ghost few_threads: { (program_of code).threads ≤ 8 },
    ghost few_queues: { (program_of code).queues ≤ 6 },
}

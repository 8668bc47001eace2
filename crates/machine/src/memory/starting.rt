//! The memory of a machine whose program was just loaded.
ghost use Rattle.std.specs.Prelude.{◌≡◌, ◌≤◌, length};
ghost use Rattle.store.specs.Meaning.{Meaning};
ghost use Rattle.rules.specs.Calls.{initial};
ghost use Rattle.code.specs.Copies.{program_of};
ghost use Rattle.machine.specs.States.{state_of};

use super::Memory;
use code::copies::Code;
use frames::thread::Thread;
use rows::row::Row;
use store::Name;

/// Takes the place of names to come.
const NO_NAME: Name = Name { maker: 0, count: 0 };

impl Memory {
    /// Each thread begins its function, no name waits, and nothing was made.
    pub(crate) fn start(code: Code, limit: u32) -> Memory
        requires threads { (program_of code).threads ≤ 8 }
        requires queues { (program_of code).queues ≤ 6 }
        requires functions { (program_of code).threads ≤ length (program_of code).functions }
        ensures { (m : Meaning) → state_of result m ≡ initial (program_of code) limit m }
    {
        let mut threads = [Thread::Ended; 8];
        for i in 0..code.header().threads {
            let function = code.function(i).unwrap();
            threads[usize::from(i)] = Thread::start(i, function.body);
        }
        Memory {
            code,
            threads,
            queues: [Row::new(NO_NAME); 8],
            counts: [0; 9],
            limit,
        }
    }
}

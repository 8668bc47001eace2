//! What stands in the memory of a machine.
ghost use Rattle.std.specs.Prelude.{◌≡◌, ◌+◌, ◌<◌, ◌≤◌, ◌↔◌, IsTrue};
ghost use Rattle.reader.specs.Programs.{header};
ghost use Rattle.store.specs.Meaning.{Meaning};
ghost use Rattle.rules.specs.State.{thread as thread_in, queue as queue_in, made as made_in};
ghost use Rattle.code.specs.Copies.{bytes_of, program_of};
ghost use Rattle.frames.specs.Threads.{thread_of};
ghost use Rattle.machine.specs.States.{state_of};

use super::Memory;
use frames::thread::Thread;
use reader::headers::Header;
use store::Name;

impl Memory {
    /// How many threads the program has, how many queues of its own, and how many functions.
    pub(crate) fn header(&self) -> Header
        ensures { (m : Meaning) → result ≡ header (state_of self.now m).program }
    {
        self.code.header()
    }

    /// A thread by its number.
    pub(crate) fn thread(&self, thread: u8) -> &Thread
        requires from { 1 ≤ thread }
        requires to { thread ≤ (program_of self.now.code).threads }
        ensures { (m : Meaning) → thread_of (bytes_of self.now.code) result.now ≡ thread_in (state_of self.now m) thread }
    {
        &self.threads[usize::from(thread) - 1]
    }

    /// Whether the program has a thread of that number.
    pub(crate) fn has_thread(&self, thread: u8) -> bool
        ensures { IsTrue result ↔ ((1 ≤ thread) × (thread ≤ (program_of self.now.code).threads)) }
    {
        (1..=self.code.header().threads).contains(&thread)
    }

    /// Whether the program has a queue of that number.
    pub(crate) fn has_queue(&self, queue: u8) -> bool
        ensures { IsTrue result ↔ (queue < 2 + (program_of self.now.code).queues) }
    {
        usize::from(queue) < 2 + usize::from(self.code.header().queues)
    }

    /// The names that wait in a queue, the oldest first; none wait where there is no such queue.
    pub(crate) fn queue(&self, queue: u8) -> &[Name]
        ensures { (m : Meaning) → result.now ≡ queue_in (state_of self.now m) queue }
    {
        let index = usize::from(queue);
        if index < 2 + usize::from(self.code.header().queues) {
            self.queues[index].as_slice()
        } else {
            &[]
        }
    }

    /// Whether a maker of that number makes packets for the program.
    pub(crate) fn has_maker(&self, maker: u8) -> bool
        ensures { IsTrue result ↔ (maker ≤ (program_of self.now.code).threads) }
    {
        maker <= self.code.header().threads
    }

    /// How many packets a maker made; 0 is the network.
    pub(crate) fn made(&self, maker: u8) -> u32
        requires { maker ≤ (program_of self.now.code).threads }
        ensures { (m : Meaning) → result ≡ made_in (state_of self.now m) maker }
    {
        self.counts[usize::from(maker)]
    }

    /// How many packets a maker may make.
    pub(crate) fn limit(&self) -> u32
        ensures { (m : Meaning) → result ≡ (state_of self.now m).limit }
    {
        self.limit
    }
}

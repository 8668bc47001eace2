//! What can be seen of a machine. Nothing of it is altered.
ghost use Rattle.std.specs.Prelude.{◌≡◌, ◌+◌, ◌<◌, ◌≤◌};
ghost use Rattle.std.specs.Option.{option_map};
ghost use Rattle.reader.specs.Programs.{header as header_of};
ghost use Rattle.rules.specs.State.{thread as thread_in, queue as queue_in, made as made_in};
ghost use Rattle.frames.specs.Threads.{thread_of};
ghost use Rattle.machine.specs.States.{machine_of};
ghost use Rattle.machine.specs.Observed.{seen, Sees, bytes_in};

use super::Machine;
use frames::thread::Thread;
use reader::headers::Header;
use store::{Name, Store};

impl<S: Store> Machine<S> {
    /// The store, which has the packets.
    pub fn store(&self) -> &S
        ensures { result.now ≡ self.now.store }
    {
        &self.store
    }

    /// How many threads the program has, how many queues of its own, and how many functions; none where nothing is loaded.
    pub fn header(&self) -> Option<Header>
        ensures { result ≡ seen (λ s. header_of s.program) (machine_of self.now.memory (S.meaning self.now.store)) }
    {
        match &self.memory {
            Some(memory) => Some(memory.header()),
            None => None,
        }
    }

    /// How many packets each maker may make; none where nothing is loaded.
    pub fn limit(&self) -> Option<u32>
        ensures { result ≡ seen (λ s. s.limit) (machine_of self.now.memory (S.meaning self.now.store)) }
    {
        match &self.memory {
            Some(memory) => Some(memory.limit()),
            None => None,
        }
    }

    /// A thread by its number; none where nothing is loaded, or the program has no such thread.
    pub fn thread(&self, thread: u8) -> Option<&Thread>
        ensures { Sees (λ s. (1 ≤ thread) × (thread ≤ s.program.threads)) (λ s. thread_in s thread) (machine_of self.now.memory (S.meaning self.now.store)) (option_map (λ r. thread_of (bytes_in self.now.memory) r.now) result) }
    {
        match &self.memory {
            Some(memory) if memory.has_thread(thread) => Some(memory.thread(thread)),
            _ => None,
        }
    }

    /// The names that wait in a queue, the oldest first; none where nothing is loaded, or the program has no such queue.
    pub fn queue(&self, queue: u8) -> Option<&[Name]>
        ensures { Sees (λ s. queue < 2 + s.program.queues) (λ s. queue_in s queue) (machine_of self.now.memory (S.meaning self.now.store)) (option_map (λ r. r.now) result) }
    {
        match &self.memory {
            Some(memory) if memory.has_queue(queue) => Some(memory.queue(queue)),
            _ => None,
        }
    }

    /// How many packets a maker made, of which 0 is the network; none where nothing is loaded, or the program has no such maker.
    pub fn made(&self, maker: u8) -> Option<u32>
        ensures { Sees (λ s. maker ≤ s.program.threads) (λ s. made_in s maker) (machine_of self.now.memory (S.meaning self.now.store)) result }
    {
        match &self.memory {
            Some(memory) if memory.has_maker(maker) => Some(memory.made(maker)),
            _ => None,
        }
    }
}

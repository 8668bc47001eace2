//! Packets that come from the network and go to it.
ghost use Rattle.std.specs.Prelude.{◌≡◌};
ghost use Rattle.store.specs.Meaning.{Meaning, found};
ghost use Rattle.store.specs.Packets.{Packet, lookup};
ghost use Rattle.rules.specs.State.{packets, queue, affected, popping};
ghost use Rattle.rules.specs.Calls.{arriving, copied};
ghost use Rattle.machine.specs.States.{state_of};
ghost use Rattle.machine.specs.Network.{Filling, Filled, Copying, Admits, Sendable};

use super::Memory;
use store::{Name, Store};

/// The queue of packets that came from the network.
const RECEIVE: usize = 0;

/// The queue of packets that go to it.
const TRANSMIT: usize = 1;

/// Writes all bytes of a packet.
fn fill<S: Store>(store: &mut S, name: Name, bytes: &[u8])
    requires { Filling (S.meaning store.old) name bytes.now }
    ensures { Filled (S.meaning store.old) name bytes.now (S.meaning store.new) }
{
    for (i, byte) in bytes.iter().enumerate() {
        store.write(name, i, *byte).unwrap();
    }
}

/// Copies the bytes of a packet to the start of a buffer.
fn copy<S: Store>(store: &S, name: Name, buffer: &mut [u8])
    requires { Copying (S.meaning store.now) name buffer.old }
    ensures { (p : Packet) → found (S.meaning store.now) name ≡ Some p → buffer.new ≡ copied p.bytes buffer.old }
{
    let size = store.size(name).unwrap();
    for (i, byte) in buffer[..size].iter_mut().enumerate() {
        *byte = store.read(name, i).unwrap();
    }
}

impl Memory {
    /// The names that wait in `receive`.
    pub(crate) fn received(&self) -> &[Name]
        ensures { (m : Meaning) → result.now ≡ queue (state_of self.now m) 0 }
    {
        self.queue(RECEIVE as u8)
    }

    /// The names that wait in `transmit`.
    pub(crate) fn sent(&self) -> &[Name]
        ensures { (m : Meaning) → result.now ≡ queue (state_of self.now m) 1 }
    {
        self.queue(TRANSMIT as u8)
    }

    /// The network's next packet, with these bytes, at the end of `receive`.
    pub(crate) fn arrive<S: Store>(&mut self, store: &mut S, bytes: &[u8])
        requires { Admits (state_of self.old (S.meaning store.old)) bytes.now }
        ensures state { let s = state_of self.old (S.meaning store.old) in state_of self.new (S.meaning store.new) ≡ affected (arriving s bytes.now) s }
        ensures code { self.new.code ≡ self.old.code }
    {
        let name = Name {
            maker: 0,
            count: self.made(0),
        };
        self.make(store, 0, bytes.len());
        fill(store, name, bytes);
        let Memory { queues, .. } = self;
        queues[RECEIVE].push(name).unwrap();
    }

    /// The oldest packet of `transmit`, of that name, goes to the start of the buffer, and is dropped.
    pub(crate) fn collect<S: Store>(&mut self, store: &mut S, name: Name, buffer: &mut [u8])
        requires { Sendable (state_of self.old (S.meaning store.old)) name buffer.old }
        ensures state { let s = state_of self.old (S.meaning store.old) in state_of self.new (S.meaning store.new) ≡ affected (popping 1 name None) s }
        ensures buffer { (p : Packet) → lookup name (packets (state_of self.old (S.meaning store.old))) ≡ Some p → buffer.new ≡ copied p.bytes buffer.old }
        ensures code { self.new.code ≡ self.old.code }
    {
        copy(store, name, buffer);
        store.discard(name).unwrap();
        let Memory { queues, .. } = self;
        queues[TRANSMIT].remove_first();
    }
}

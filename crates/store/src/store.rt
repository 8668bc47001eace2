//! What each store promises.

ghost use Rattle.std.specs.Prelude.{◌≡◌, ℕ, ◌≤◌};
ghost use Rattle.store.specs.Meaning.{Meaning, units, make_answer, make_after, discard_answer, discard_after, write_answer, write_after, hand_answer, hand_after, size_answer, holder_answer, read_answer};

use crate::denial::{Handed, Question};
use crate::kind::Kind;
use crate::name::Name;

/// A store of packets. Its meaning is a map from names to packets, a largest size, a capacity in units and a need for each size.
pub trait Store {
    /// The kind of the store, which has a number.
    type Kind: Kind;

    ghost meaning: { Self → Meaning };

    /// Adds a packet of zeros, held by its maker.
    fn make(&mut self, name: Name, size: usize) -> Result<(), Question>
        ensures answer { result ≡ make_answer (meaning self.old) name size }
        ensures after { meaning self.new ≡ make_after (meaning self.old) name size };

    /// Removes a packet.
    fn discard(&mut self, name: Name) -> Result<(), Question>
        ensures answer { result ≡ discard_answer (meaning self.old) name }
        ensures after { meaning self.new ≡ discard_after (meaning self.old) name };

    /// Sets one byte of a packet.
    fn write(&mut self, name: Name, offset: usize, byte: u8) -> Result<(), Question>
        ensures answer { result ≡ write_answer (meaning self.old) name offset }
        ensures after { meaning self.new ≡ write_after (meaning self.old) name offset byte };

    /// Sets the holder of a packet.
    fn hand(&mut self, name: Name, holder: u8) -> Result<Handed, Question>
        ensures answer { result ≡ hand_answer (meaning self.old) name }
        ensures after { meaning self.new ≡ hand_after (meaning self.old) name holder };

    fn largest(&self) -> usize
        ensures { result ≡ (meaning self.now).largest };

    fn capacity(&self) -> usize
        ensures { result ≡ (meaning self.now).capacity };

    /// The units that a packet of that size takes, at least one.
    fn need(&self, size: usize) -> usize
        ensures value { result ≡ (meaning self.now).need size }
        ensures least { 1 ≤ result };

    /// The sum of the needs of all packets alive. It stays within the capacity, and each packet counts.
    fn used(&self) -> usize
        ensures value { result ≡ units (meaning self.now) }
        ensures within { units (meaning self.now) ≤ (meaning self.now).capacity }
        ensures least { (k : ℕ) → 1 ≤ (meaning self.now).need k };

    fn size(&self, name: Name) -> Result<usize, Question>
        ensures { result ≡ size_answer (meaning self.now) name };

    fn holder(&self, name: Name) -> Result<u8, Question>
        ensures { result ≡ holder_answer (meaning self.now) name };

    /// One byte of a packet.
    fn read(&self, name: Name, offset: usize) -> Result<u8, Question>
        ensures { result ≡ read_answer (meaning self.now) name offset };
}

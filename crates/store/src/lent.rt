//! What is asked of memory that a caller lends to a store.

ghost use Rattle.std.specs.Prelude.{◌≡◌, ℕ, ◌<◌, ◌≤◌, true, List, length, is_some, Option, slice_index, slice_set};
ghost use Rattle.store.specs.Packets.{new_packet, with_byte, with_holder};
ghost use Rattle.store.specs.Rows.{Row, Vacant, place, row_at, row_of, blank, with_packet, total};

use crate::name::Name;

/// Memory in places for packets, with a table of records of what lies where. A place counts as one unit of the capacity.
// What a call needs is a `requires`, as of any inner call, and `sound` no ghost field of each kind of memory: links and heads break it between two writes.
pub trait Lent {
    /// What the table and the memory mean, place by place.
    ghost rows: { Self → List Row };

    ghost largest: { ℕ };

    ghost need: { ℕ → ℕ };

    ghost least: { (size : ℕ) → 1 ≤ need size };

    /// What keeps the places apart.
    ghost sound: { Self → Type 0 };

    ghost is_fact: { (lent : Self) → IsProp (sound lent) };

    /// The place of the packet of that name.
    fn seek(&self, name: Name) -> Option<usize>
        ensures { result ≡ place (Some name) (rows self.now) };

    /// A place without a packet, where there is room for a packet of that size.
    fn vacant(&self, size: usize) -> Option<usize>
        requires { sound self.now }
        ensures { Vacant need (rows self.now) size result };

    /// Lays a packet of zeros in a place without one, held by its maker.
    fn fill(&mut self, place: usize, name: Name, size: usize)
        requires sound { sound self.old }
        requires small { size ≤ largest }
        requires vacant { Vacant need (rows self.old) size (Some place) }
        ensures sound { sound self.new }
        ensures filled { rows self.new ≡ slice_set (rows self.old) place (row_of name (new_packet name size)) };

    /// Takes the packet out of a place.
    fn release(&mut self, place: usize)
        requires sound { sound self.old }
        requires alive { is_some (row_at (rows self.old) place).named ≡ true }
        ensures sound { sound self.new }
        ensures released { rows self.new ≡ slice_set (rows self.old) place blank };

    /// Sets one byte of a place's packet.
    fn put(&mut self, place: usize, offset: usize, byte: u8)
        requires sound { sound self.old }
        requires inside { offset < length (row_at (rows self.old) place).packet.bytes }
        ensures sound { sound self.new }
        ensures written { rows self.new ≡ slice_set (rows self.old) place (with_packet (with_byte offset byte) (row_at (rows self.old) place)) };

    /// Sets the holder of a place's packet.
    fn hand(&mut self, place: usize, holder: u8)
        requires sound { sound self.old }
        requires alive { is_some (row_at (rows self.old) place).named ≡ true }
        ensures sound { sound self.new }
        ensures handed { rows self.new ≡ slice_set (rows self.old) place (with_packet (with_holder holder) (row_at (rows self.old) place)) };

    fn size(&self, place: usize) -> usize
        requires sound { sound self.now }
        requires alive { is_some (row_at (rows self.now) place).named ≡ true }
        ensures { result ≡ length (row_at (rows self.now) place).packet.bytes };

    fn holder(&self, place: usize) -> u8
        requires { is_some (row_at (rows self.now) place).named ≡ true }
        ensures { result ≡ (row_at (rows self.now) place).packet.holder };

    /// One byte of a place's packet.
    fn byte(&self, place: usize, offset: usize) -> u8
        requires sound { sound self.now }
        requires inside { offset < length (row_at (rows self.now) place).packet.bytes }
        ensures { result ≡ slice_index (row_at (rows self.now) place).packet.bytes offset };

    /// How many places there are.
    fn capacity(&self) -> usize
        ensures { result ≡ length (rows self.now) };

    /// The sum of the needs of all packets.
    fn used(&self) -> usize
        requires { sound self.now }
        ensures value { result ≡ total need (rows self.now) }
        ensures within { result ≤ length (rows self.now) };

    /// The most bytes of a packet.
    fn largest() -> usize
        ensures { result ≡ largest };

    /// The units that a packet of that size takes.
    fn need(size: usize) -> usize
        ensures { result ≡ need size };
}

//! A chain's lent memory, in cells of 32 bytes.

ghost use Rattle.std.specs.Prelude.{◌≡◌, ℕ, ◌+◌, ◌*◌, ◌<◌, ◌≤◌, true, length, is_some, Some, slice_index_or};
ghost use Rattle.std.proofs.Common.{arith};
ghost use Rattle.std.proofs.Props.{props};
ghost use Rattle.chain.specs.Cells.{nth_cell, cells, count, Wiped};
ghost use Rattle.chain.specs.Chains.{chain_need, spot_of};
ghost use Rattle.chain.specs.Heads.{no_head};
ghost use Rattle.chain.specs.Lents.{rows, Sound};
ghost use Rattle.store.specs.Packets.{empty};
ghost use Rattle.store.specs.Rows.{distinct, gathered, row_at};

use crate::head::{Head, Stored};
use crate::links::cell_at;
use store::{Lent, Name, clear, find};

// The bytes of a cell.
pub(crate) const CELL: usize = 32;

// The most bytes of a packet.
const LARGEST: usize = 1024;

/// The caller's memory, links and table of heads; the first of the spare cells, and how many are spare.
/// Each spare cell's link names the next one, as in a packet.
// Three slices side by side, and cells named by number: the caller lends fixed memory, and nothing is allocated.
#[derive(Drop)]
pub struct Cells<'a> {
    memory: &'a mut [u8],
    links: &'a mut [usize],
    heads: &'a mut [Head],
    free: usize,
    spare: usize,
}

impl<'a> Cells<'a> {
    // Without packets: each head is free, and each cell is spare, in the order of their numbers.
    pub(crate) fn over(
        memory: &'a mut [u8],
        links: &'a mut [usize],
        heads: &'a mut [Head],
    ) -> Cells<'a>
        requires bytes { length memory.old ≡ 32 * length heads.old }
        requires joins { length links.old ≡ length heads.old }
        ensures sound { Sound result }
        ensures apart { distinct (rows result) ≡ true }
        ensures packets { gathered (rows result) ≡ empty }
        ensures places { length (rows result) ≡ length heads.old }
    {
        heads.fill(Head::free());
        for (i, link) in links.iter_mut().enumerate() {
            *link = i + 1;
        }
        let spare = heads.len();
        Cells {
            memory,
            links,
            heads,
            free: 0,
            spare,
        }
    }

    // The cell that lies so many links behind the first.
    fn cell(&self, first: usize, steps: usize) -> usize
        ensures { result ≡ nth_cell self.now.links.now first steps }
    {
        cell_at(self.links, first, steps)
    }

    // Lays zeros in so many cells from the first on, and answers the cell behind them.
    fn wipe(&mut self, first: usize, amount: usize) -> usize
        requires { (c : ℕ) → 1 ≤ count c (cells self.old.links.now first amount) → 32 * c + 32 ≤ length self.old.memory.now }
        ensures behind { result ≡ nth_cell self.old.links.now first amount }
        ensures wiped { Wiped self.old.links.now first amount self.old.memory.now self.new.memory.now }
        ensures links { self.new.links.now ≡ self.old.links.now }
        ensures heads { self.new.heads.now ≡ self.old.heads.now }
        ensures spare { self.new.spare ≡ self.old.spare }
    {
        let mut cell = first;
        // A number of steps: each cell is found from the one before.
        for _ in 0..amount {
            let start = CELL * cell;
            clear(&mut self.memory[start..start + CELL]);
            cell = self.cell(cell, 1);
        }
        cell
    }

    // What the table keeps of the packet at a place.
    fn stored(&self, place: usize) -> Stored
        requires { is_some (row_at (rows self.now) place).named ≡ true }
        ensures within { place < length self.now.heads.now }
        ensures kept { (slice_index_or self.now.heads.now place no_head).packet ≡ Some result }
    {
        self.heads[place].packet.unwrap()
    }

    // Where an offset of the packet at a place lies in memory.
    fn spot(&self, place: usize, offset: usize) -> usize
        requires sound { Sound self.now }
        requires inside { offset < length (row_at (rows self.now) place).packet.bytes }
        ensures value { result ≡ spot_of self.now.links.now (slice_index_or self.now.heads.now place no_head).packet offset }
        ensures within { result < length self.now.memory.now }
    {
        let stored = self.stored(place);
        CELL * self.cell(stored.first, offset / CELL) + offset % CELL
    }
}

// The places are the heads, and a head with a packet has the number of its first cell.
impl<'a> Lent for Cells<'a> {
    ghost rows = { rows };

    ghost largest = { 1024 };

    ghost need = { chain_need };

    ghost least = { λ size. Prim.omega arith };

    ghost sound = { Sound };

    ghost is_fact = { λ s. Prim.hlevel props };

    fn seek(&self, name: Name) -> Option<usize> {
        find(self.heads, Some(name))
    }

    fn vacant(&self, size: usize) -> Option<usize> {
        if Self::need(size) > self.spare {
            return None;
        }
        // where a cell is spare a head is free, since each packet has a cell
        find(self.heads, None)
    }

    // the packet takes the first of the spare cells
    fn fill(&mut self, place: usize, name: Name, size: usize) {
        let amount = Self::need(size);
        let first = self.free;
        self.free = self.wipe(first, amount);
        self.spare -= amount;
        self.heads[place].packet = Some(Stored {
            name,
            holder: name.maker,
            size: size as u16,
            first,
        });
    }

    // the packet's cells become the first of the spare ones
    fn release(&mut self, place: usize) {
        let stored = self.stored(place);
        let amount = Self::need(usize::from(stored.size));
        let last = self.cell(stored.first, amount - 1);
        self.links[last] = self.free;
        self.free = stored.first;
        self.spare += amount;
        self.heads[place].packet = None;
    }

    fn put(&mut self, place: usize, offset: usize, byte: u8) {
        let spot = self.spot(place, offset);
        self.memory[spot] = byte;
    }

    fn hand(&mut self, place: usize, holder: u8) {
        if let Some(stored) = &mut self.heads[place].packet {
            stored.holder = holder;
        }
    }

    fn size(&self, place: usize) -> usize {
        usize::from(self.stored(place).size)
    }

    fn holder(&self, place: usize) -> u8 {
        self.stored(place).holder
    }

    fn byte(&self, place: usize, offset: usize) -> u8 {
        self.memory[self.spot(place, offset)]
    }

    fn capacity(&self) -> usize {
        self.heads.len()
    }

    fn used(&self) -> usize {
        // A loop over the records that adds up needs, the stated form of this sum.
        let mut sum = 0;
        for head in self.heads.iter() {
            if let Some(stored) = head.packet {
                sum += Self::need(usize::from(stored.size));
            }
        }
        sum
    }

    fn largest() -> usize
        ensures { result ≡ 1024 }
    {
        LARGEST
    }

    fn need(size: usize) -> usize
        ensures { result ≡ chain_need size }
    {
        size.saturating_sub(1) / CELL + 1
    }
}

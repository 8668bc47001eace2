//! Slots of the caller's memory, and the store over them.
ghost use Rattle.std.specs.Prelude.{◌≡◌, ◌+◌, ◌*◌, ◌/◌, ◌<◌, ◌≤◌, min, true, length, is_some, Some};
ghost use Rattle.std.proofs.Common.{arith};
ghost use Rattle.std.proofs.Props.{props};
ghost use Rattle.slab_store.specs.Slabs.{rows, Whole, empty_slab, label_at};
ghost use Rattle.store.specs.Blocks.{zeroed};
ghost use Rattle.store.specs.Rows.{row_at};

use crate::slot::Slot;
use store::{Kind, Label, Lent, LentStore, Name, Store, clear, find};

/// The bytes of a slot.
const SLOT: usize = 256;

/// The caller's memory and table of slot records. Slot i has the 256 bytes from 256 * i on.
// Memory and records lie apart because the caller lends them so.
#[derive(Drop)]
pub struct Slots<'a> {
    memory: &'a mut [u8],
    slots: &'a mut [Slot],
}

/// A store of packets of at most 256 bytes, each in a slot of its own.
pub type Slab<'a> = LentStore<Slots<'a>, 1>;

/// A slab over any memory and table, with nothing in it. What does not make a whole slot with a record of its own is left alone.
pub fn slab_over<'a>(memory: &'a mut [u8], slots: &'a mut [Slot]) -> Slab<'a>
    ensures meaning { ⟦<Slab<'a> as Store>⟧.meaning result ≡ empty_slab (min (length slots.old) (length memory.old / 256)) }
    ensures kind { ⟦<<Slab<'a> as Store>::Kind as Kind>⟧.KIND ≡ 1 }
{
    let count = slots.len().min(memory.len() / SLOT);
    let memory = &mut memory[..SLOT * count];
    let slots = &mut slots[..count];
    slots.fill(Slot::free());
    LentStore::over(Slots { memory, slots })
}

impl Slots<'_> {
    /// Lays zeros in the first bytes of a slot.
    fn wipe(&mut self, slot: usize, size: usize)
        requires { 256 * slot + size ≤ length self.old.memory.now }
        ensures memory { self.new.memory.now ≡ zeroed (256 * slot) size self.old.memory.now }
        ensures slots { self.new.slots.now ≡ self.old.slots.now }
    {
        let start = SLOT * slot;
        clear(&mut self.memory[start..start + size]);
    }

    /// What the table keeps of the packet in a slot.
    fn label(&self, slot: usize) -> Label
        requires { is_some (row_at (rows self.now) slot).named ≡ true }
        ensures within { slot < length self.now.slots.now }
        ensures kept { label_at self.now.slots.now slot ≡ Some result }
        ensures small { result.size ≤ 256 }
    {
        self.slots[slot].label.unwrap()
    }
}

impl Lent for Slots<'_> {
    ghost rows = { rows };

    ghost largest = { 256 };

    ghost need = { λ _. 1 };

    ghost least = { λ _. Prim.omega arith };

    ghost sound = { Whole };

    ghost is_fact = { λ _. Prim.hlevel props };

    fn seek(&self, name: Name) -> Option<usize> {
        find(self.slots, Some(name))
    }

    fn vacant(&self, _size: usize) -> Option<usize> {
        find(self.slots, None)
    }

    fn fill(&mut self, slot: usize, name: Name, size: usize) {
        self.wipe(slot, size);
        let holder = name.maker;
        self.slots[slot] = Slot {
            label: Some(Label { name, holder, size }),
        };
    }

    fn release(&mut self, slot: usize) {
        self.slots[slot] = Slot { label: None };
    }

    fn put(&mut self, slot: usize, offset: usize, byte: u8) {
        self.memory[SLOT * slot + offset] = byte;
    }

    fn hand(&mut self, slot: usize, holder: u8) {
        let label = self.label(slot);
        self.slots[slot] = Slot {
            label: Some(Label { holder, ..label }),
        };
    }

    fn size(&self, slot: usize) -> usize {
        self.label(slot).size
    }

    fn holder(&self, slot: usize) -> u8 {
        self.label(slot).holder
    }

    fn byte(&self, slot: usize, offset: usize) -> u8 {
        self.memory[SLOT * slot + offset]
    }

    fn capacity(&self) -> usize {
        self.slots.len()
    }

    fn used(&self) -> usize {
        // A loop over the records that adds up needs, the stated form of this sum.
        let mut sum = 0;
        for slot in self.slots.iter() {
            if slot.label.is_some() {
                sum += 1;
            }
        }
        sum
    }

    fn largest() -> usize
        ensures { result ≡ 256 }
    {
        SLOT
    }

    fn need(_size: usize) -> usize
        ensures { result ≡ 1 }
    {
        1
    }
}

//! A store of a kind of its own, over a slab that it holds.

use slab_store::Slab;
use store::{Handed, KindOf, Name, Question, Store};

/// A slab under another number. It has a lifetime parameter, as any store may that keeps what a caller lends.
#[derive(Drop)]
pub(crate) struct Renamed<'a> {
    pub(crate) slab: Slab<'a>,
}

impl<'a> Store for Renamed<'a> {
    type Kind = KindOf<9>;

    ghost meaning = { λ s. ⟦<Slab<'a> as Store>⟧.meaning s.slab };

    fn make(&mut self, name: Name, size: usize) -> Result<(), Question> {
        self.slab.make(name, size)
    }

    fn discard(&mut self, name: Name) -> Result<(), Question> {
        self.slab.discard(name)
    }

    fn write(&mut self, name: Name, offset: usize, byte: u8) -> Result<(), Question> {
        self.slab.write(name, offset, byte)
    }

    fn hand(&mut self, name: Name, holder: u8) -> Result<Handed, Question> {
        self.slab.hand(name, holder)
    }

    fn largest(&self) -> usize {
        self.slab.largest()
    }

    fn capacity(&self) -> usize {
        self.slab.capacity()
    }

    fn need(&self, size: usize) -> usize {
        self.slab.need(size)
    }

    fn used(&self) -> usize {
        self.slab.used()
    }

    fn size(&self, name: Name) -> Result<usize, Question> {
        self.slab.size(name)
    }

    fn holder(&self, name: Name) -> Result<u8, Question> {
        self.slab.holder(name)
    }

    fn read(&self, name: Name, offset: usize) -> Result<u8, Question> {
        self.slab.read(name, offset)
    }
}

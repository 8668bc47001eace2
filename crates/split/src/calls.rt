//! A split as a store.

ghost use Rattle.std.specs.Prelude.{◌≡◌};
ghost use Rattle.split.specs.Splits.{split_meaning};
ghost use Rattle.store.specs.Meaning.{make_answer, make_after, discard_answer, discard_after, write_answer, write_after, hand_answer, hand_after};

use crate::carry::transfer;
use crate::split::{Place, Split};
use store::{Handed, KindOf, Name, Question, Store};

impl<N: Store, F: Store> Store for Split<N, F> {
    type Kind = KindOf<3>;

    ghost meaning = { λ s. split_meaning (N.meaning s.near) (F.meaning s.far) s.clean };

    fn make(&mut self, name: Name, size: usize) -> Result<(), Question>
        ensures answer { result ≡ make_answer (⟦<Split<N, F> as Store>⟧.meaning self.old) name size }
        ensures after { ⟦<Split<N, F> as Store>⟧.meaning self.new ≡ make_after (⟦<Split<N, F> as Store>⟧.meaning self.old) name size }
        ensures bound { self.new.bound ≡ self.old.bound }
    {
        if self.place(name).is_ok() {
            return Err(Question::Unused);
        }
        if size > self.largest() {
            return Err(Question::Fits);
        }
        let need = self.need(size);
        if need > self.capacity() - self.used {
            return Err(Question::Room);
        }
        self.used += need;
        if name.maker <= self.bound {
            self.near.make(name, size)
        } else {
            self.far.make(name, size)
        }
    }

    fn discard(&mut self, name: Name) -> Result<(), Question>
        ensures answer { result ≡ discard_answer (⟦<Split<N, F> as Store>⟧.meaning self.old) name }
        ensures after { ⟦<Split<N, F> as Store>⟧.meaning self.new ≡ discard_after (⟦<Split<N, F> as Store>⟧.meaning self.old) name }
        ensures bound { self.new.bound ≡ self.old.bound }
    {
        match self.place(name)? {
            Place::Near(size) => {
                self.used -= self.need(size);
                self.near.discard(name)
            }
            Place::Far(size) => {
                self.used -= self.need(size);
                self.far.discard(name)
            }
        }
    }

    fn write(&mut self, name: Name, offset: usize, byte: u8) -> Result<(), Question>
        ensures answer { result ≡ write_answer (⟦<Split<N, F> as Store>⟧.meaning self.old) name offset }
        ensures after { ⟦<Split<N, F> as Store>⟧.meaning self.new ≡ write_after (⟦<Split<N, F> as Store>⟧.meaning self.old) name offset byte }
        ensures bound { self.new.bound ≡ self.old.bound }
    {
        match self.place(name)? {
            Place::Near(_) => self.near.write(name, offset, byte),
            Place::Far(_) => self.far.write(name, offset, byte),
        }
    }

    // The packet moves where the new holder's packets lie.
    fn hand(&mut self, name: Name, holder: u8) -> Result<Handed, Question>
        ensures answer { result ≡ hand_answer (⟦<Split<N, F> as Store>⟧.meaning self.old) name }
        ensures after { ⟦<Split<N, F> as Store>⟧.meaning self.new ≡ hand_after (⟦<Split<N, F> as Store>⟧.meaning self.old) name holder }
        ensures bound { self.new.bound ≡ self.old.bound }
    {
        match (self.place(name)?, holder <= self.bound) {
            (Place::Near(_), true) => self.near.hand(name, holder),
            (Place::Near(size), false) => {
                transfer(&mut self.near, &mut self.far, name, size, holder)
            }
            (Place::Far(size), true) => {
                transfer(&mut self.far, &mut self.near, name, size, holder)
            }
            (Place::Far(_), false) => self.far.hand(name, holder),
        }
    }

    fn largest(&self) -> usize {
        self.near.largest().min(self.far.largest())
    }

    // A split that was made over a store in use takes nothing.
    fn capacity(&self) -> usize {
        if self.clean {
            self.near.capacity().min(self.far.capacity())
        } else {
            0
        }
    }

    // The larger need of the two stores, so that a packet can lie in either.
    fn need(&self, size: usize) -> usize {
        self.near.need(size).max(self.far.need(size))
    }

    fn used(&self) -> usize {
        self.used
    }

    fn size(&self, name: Name) -> Result<usize, Question> {
        match self.place(name)? {
            Place::Near(size) => Ok(size),
            Place::Far(size) => Ok(size),
        }
    }

    fn holder(&self, name: Name) -> Result<u8, Question> {
        match self.place(name)? {
            Place::Near(_) => self.near.holder(name),
            Place::Far(_) => self.far.holder(name),
        }
    }

    fn read(&self, name: Name, offset: usize) -> Result<u8, Question> {
        match self.place(name)? {
            Place::Near(_) => self.near.read(name, offset),
            Place::Far(_) => self.far.read(name, offset),
        }
    }
}

//! The store over memory that a caller lends.

ghost use Rattle.std.specs.Prelude.{◌≡◌, true, length};
ghost use Rattle.store.specs.Rows.{Placed, Reached, distinct, meaning_of};

use crate::denial::{Handed, Question};
use crate::kind::{Kind, KindOf};
use crate::lent::Lent;
use crate::name::Name;
use crate::store::Store;

/// A store of kind `K` that keeps its packets in places of lent memory.
#[derive(Drop)]
pub struct LentStore<L: Lent, const K: u8> {
    lent: L,
    ghost sound: { L.sound lent } by { L.is_fact lent },
    ghost apart: { distinct (L.rows lent) ≡ true },
}

impl<L: Lent, const K: u8> LentStore<L, K> {
    /// The store over memory whose table says what its places hold. The makers of each kind of store call it.
    pub fn over(lent: L) -> LentStore<L, K>
        requires sound { L.sound lent }
        requires apart { distinct (L.rows lent) ≡ true }
        ensures kind { ⟦<<LentStore<L, K> as Store>::Kind as Kind>⟧.KIND ≡ K }
        ensures meaning { ⟦<LentStore<L, K> as Store>⟧.meaning result ≡ meaning_of (L.rows lent) L.largest (length (L.rows lent)) L.need }
    {
        LentStore { lent }
    }

    /// The place of the packet of that name, which is to be alive.
    fn place(&self, name: Name) -> Result<usize, Question>
        ensures { Placed (L.rows self.now.lent) name result }
    {
        self.lent.seek(name).ok_or(Question::Alive)
    }

    /// The place of the packet of that name, where the offset is to lie inside it.
    fn place_inside(&self, name: Name, offset: usize) -> Result<usize, Question>
        ensures { Reached (L.rows self.now.lent) name offset result }
    {
        let place = self.place(name)?;
        if offset >= self.lent.size(place) {
            return Err(Question::Inside);
        }
        Ok(place)
    }
}

impl<L: Lent, const K: u8> Store for LentStore<L, K> {
    type Kind = KindOf<K>;

    ghost meaning = { λ s. meaning_of (L.rows s.lent) L.largest (length (L.rows s.lent)) L.need };

    fn make(&mut self, name: Name, size: usize) -> Result<(), Question> {
        if self.place(name).is_ok() {
            return Err(Question::Unused);
        }
        if size > L::largest() {
            return Err(Question::Fits);
        }
        let Some(place) = self.lent.vacant(size) else {
            return Err(Question::Room);
        };
        self.lent.fill(place, name, size);
        Ok(())
    }

    fn discard(&mut self, name: Name) -> Result<(), Question> {
        let place = self.place(name)?;
        self.lent.release(place);
        Ok(())
    }

    fn write(&mut self, name: Name, offset: usize, byte: u8) -> Result<(), Question> {
        let place = self.place_inside(name, offset)?;
        self.lent.put(place, offset, byte);
        Ok(())
    }

    fn hand(&mut self, name: Name, holder: u8) -> Result<Handed, Question> {
        let place = self.place(name)?;
        self.lent.hand(place, holder);
        Ok(Handed)
    }

    fn largest(&self) -> usize {
        L::largest()
    }

    fn capacity(&self) -> usize {
        self.lent.capacity()
    }

    fn need(&self, size: usize) -> usize {
        L::need(size)
    }

    fn used(&self) -> usize {
        self.lent.used()
    }

    fn size(&self, name: Name) -> Result<usize, Question> {
        let place = self.place(name)?;
        Ok(self.lent.size(place))
    }

    fn holder(&self, name: Name) -> Result<u8, Question> {
        let place = self.place(name)?;
        Ok(self.lent.holder(place))
    }

    fn read(&self, name: Name, offset: usize) -> Result<u8, Question> {
        let place = self.place_inside(name, offset)?;
        Ok(self.lent.byte(place, offset))
    }
}

//! The calls that can be denied, over any store: each denial carries the number of the store's kind.

ghost use Rattle.std.specs.Prelude.{◌≡◌};
ghost use Rattle.store.specs.Meaning.{with_kind, room_for, make_answer, make_after, discard_answer, discard_after, write_answer, write_after, hand_answer, hand_after, size_answer, holder_answer, read_answer};

use crate::denial::{Denial, Handed, Question};
use crate::kind::Kind;
use crate::name::Name;
use crate::store::Store;

// The answer with the number of the store's kind in its denial.
fn marked<S: Store, X>(answer: Result<X, Question>) -> Result<X, Denial>
    ensures { result ≡ with_kind S.Kind.KIND answer }
{
    answer.map_err(|question| Denial {
        question,
        kind: S::Kind::KIND,
    })
}

/// [`Store::make`], with the store's kind in a denial.
pub fn make<S: Store>(store: &mut S, name: Name, size: usize) -> Result<(), Denial>
    ensures answer { result ≡ with_kind S.Kind.KIND (make_answer (S.meaning store.old) name size) }
    ensures after { S.meaning store.new ≡ make_after (S.meaning store.old) name size }
{
    marked::<S, _>(store.make(name, size))
}

/// [`Store::discard`], with the store's kind in a denial.
pub fn discard<S: Store>(store: &mut S, name: Name) -> Result<(), Denial>
    ensures answer { result ≡ with_kind S.Kind.KIND (discard_answer (S.meaning store.old) name) }
    ensures after { S.meaning store.new ≡ discard_after (S.meaning store.old) name }
{
    marked::<S, _>(store.discard(name))
}

/// [`Store::write`], with the store's kind in a denial.
pub fn write<S: Store>(store: &mut S, name: Name, offset: usize, byte: u8) -> Result<(), Denial>
    ensures answer { result ≡ with_kind S.Kind.KIND (write_answer (S.meaning store.old) name offset) }
    ensures after { S.meaning store.new ≡ write_after (S.meaning store.old) name offset byte }
{
    marked::<S, _>(store.write(name, offset, byte))
}

/// [`Store::hand`], with the store's kind in a denial.
pub fn hand<S: Store>(store: &mut S, name: Name, holder: u8) -> Result<Handed, Denial>
    ensures answer { result ≡ with_kind S.Kind.KIND (hand_answer (S.meaning store.old) name) }
    ensures after { S.meaning store.new ≡ hand_after (S.meaning store.old) name holder }
{
    marked::<S, _>(store.hand(name, holder))
}

/// [`Store::size`], with the store's kind in a denial.
pub fn size<S: Store>(store: &S, name: Name) -> Result<usize, Denial>
    ensures { result ≡ with_kind S.Kind.KIND (size_answer (S.meaning store.now) name) }
{
    marked::<S, _>(store.size(name))
}

/// [`Store::holder`], with the store's kind in a denial.
pub fn holder<S: Store>(store: &S, name: Name) -> Result<u8, Denial>
    ensures { result ≡ with_kind S.Kind.KIND (holder_answer (S.meaning store.now) name) }
{
    marked::<S, _>(store.holder(name))
}

/// [`Store::read`], with the store's kind in a denial.
pub fn read<S: Store>(store: &S, name: Name, offset: usize) -> Result<u8, Denial>
    ensures { result ≡ with_kind S.Kind.KIND (read_answer (S.meaning store.now) name offset) }
{
    marked::<S, _>(store.read(name, offset))
}

/// Whether a packet of that size has room now, the answer to question 62.
pub fn has_room<S: Store>(store: &S, size: usize) -> bool
    ensures { result ≡ room_for (S.meaning store.now) size }
{
    store.need(size) <= store.capacity() - store.used()
}

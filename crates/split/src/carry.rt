//! Packets moved from one store to another.

ghost use Rattle.std.specs.Prelude.{◌≡◌};
ghost use Rattle.split.specs.Carry.{Carried, Copied, Moved};

use store::{Handed, Name, Question, Store};

// `from`, `to`, `name` and `size` are no struct: the two stores are borrowed anew for each call, and differently.

// Copies the bytes of a packet of that name and size from one store to another, which has one of the same name and size.
fn carry<X: Store, Y: Store>(from: &X, to: &mut Y, name: Name, size: usize)
    ensures { Carried (X.meaning from.now) (Y.meaning to.old) (Y.meaning to.new) name size size }
{
    // By offset: a store gives and takes single bytes.
    for i in 0..size {
        let byte = from.read(name, i).unwrap_or(0);
        let _ = to.write(name, i, byte);
    }
}

// Makes a packet of that name and size in another store, with the bytes that it has in this one.
fn copy<X: Store, Y: Store>(from: &X, to: &mut Y, name: Name, size: usize) -> Result<(), Question>
    ensures { Copied (X.meaning from.now) (Y.meaning to.old) (Y.meaning to.new) name size result }
{
    to.make(name, size)?;
    carry(from, to, name, size);
    Ok(())
}

// Moves a packet of that size to another store, and sets its holder there.
pub(crate) fn transfer<X: Store, Y: Store>(
    from: &mut X,
    to: &mut Y,
    name: Name,
    size: usize,
    holder: u8,
) -> Result<Handed, Question>
    ensures { Moved (X.meaning from.old) (X.meaning from.new) (Y.meaning to.old) (Y.meaning to.new) name size holder result }
{
    copy(from, to, name, size)?;
    from.discard(name)?;
    to.hand(name, holder)
}

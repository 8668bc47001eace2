//! The search in a table of named records.

ghost use Rattle.std.specs.Prelude.{◌≡◌, Option};
ghost use Rattle.store.specs.declared.name.Name.{Name};
ghost use Rattle.store.specs.Rows.{position};

use crate::name::Name;

/// A record of a table, which has a packet's name or none.
pub trait Named {
    ghost named: { Self → Option Name };

    fn name(&self) -> Option<Name>
        ensures { result ≡ named self.now };
}

/// The place of the first record of that name; of the first free one, where no name is given.
pub fn find<R: Named>(records: &[R], name: Option<Name>) -> Option<usize>
    ensures { result ≡ position R.named name records.now }
{
    records.iter().position(|record| record.name() == name)
}

//! The records of a table.
ghost use Rattle.records.specs.Tables.{ForProgram, Recorded};

use super::glances::glance_at;
use super::{Record, Table};

impl Table<'_> {
    /// The record of a function, if the program has that function.
    pub fn record(&self, function: u8) -> Option<Record>
        ensures { ForProgram self.now (λ P. Recorded self.now.program.now P function result) }
    {
        let place = self.places.get(usize::from(function))?;
        glance_at(self.program, function, place).ok()
    }
}

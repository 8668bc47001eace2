//! The frame of a function that runs.
ghost use Rattle.std.specs.Prelude.{◌≡◌, ℕ, ◌+◌, ◌≤◌, ◌↔◌, List, length, IsOk, OnOk, OnErr};
ghost use Rattle.rows.specs.Rows.{items};
ghost use Rattle.code.specs.Sights.{sees};
ghost use Rattle.frames.specs.Giving.{bound as bound_as};
ghost use Rattle.frames.specs.Threads.{frame_of, advanced};

use rows::row::{Full, Row};
use rules::held::Held;

/// A function by its number, the place where it stands, and what its variables hold, those of them that are bound.
// Holds a row: a derived equality would compare what lies past its end.
#[derive(Clone, Copy)]
pub struct Frame {
    pub function: u8,
    pub place: usize,
    pub variables: Row<Held, 16>,
}

impl Frame {
    /// Becomes what another frame is. No more is copied than the variables that are bound.
    #[inline(always)]
    pub fn copy_from(&mut self, other: &Frame)
        ensures function { self.new.function ≡ other.now.function }
        ensures place { self.new.place ≡ other.now.place }
        ensures variables { items self.new.variables ≡ items other.now.variables }
    {
        self.function = other.function;
        self.place = other.place;
        self.variables.clear();
        self.variables.extend(other.variables.as_slice()).unwrap();
    }

    /// Goes on at another place, with one value more, and with a variable of that name emptied.
    #[inline(always)]
    pub(crate) fn advance(
        &mut self,
        place: usize,
        spent: Option<u8>,
        bound: Option<Held>,
    ) -> Result<(), Full>
        ensures room { IsOk result ↔ (length (items self.old.variables) + length (bound_as bound) ≤ 16) }
        ensures ok { OnOk result ((b : List ℕ) → frame_of b self.new ≡ advanced (sees b place) spent bound (frame_of b self.old)) }
        ensures err { OnErr result (self.new ≡ self.old) }
    {
        if let Some(held) = bound {
            self.variables.push(held)?;
        }
        if let Some(variable) = spent {
            self.variables.put(usize::from(variable), Held::Nothing);
        }
        self.place = place;
        Ok(())
    }
}

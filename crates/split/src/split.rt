//! The struct of a split, and where its packets lie.

ghost use Rattle.std.specs.Prelude.{◌≡◌};
ghost use Rattle.split.specs.Splits.{split_meaning, new_split, Stands};
ghost use Rattle.std.proofs.Props.{props};
ghost use Rattle.split.specs.Places.{Placed};

use store::{Kind, Name, Question, Store};

/// Packets of holders up to a bound lie in the near store, others in the far one.
#[derive(Drop)]
pub struct Split<N: Store, F: Store> {
    pub(crate) near: N,
    pub(crate) far: F,
    pub(crate) bound: u8,
    // whether both stores held nothing when the split was made; no Option of `used`: make and discard would have to open it to add and take away
    pub(crate) clean: bool,
    // the sum of the split's own needs, which can be larger than those of a half
    pub(crate) used: usize,
    ghost stands: { Stands (N.meaning near) (F.meaning far) clean bound used } by { Prim.hlevel props },
}

// Where a packet lies, and its size.
#[derive(Debug, Clone, Copy, PartialEq, Eq)]
pub(crate) enum Place {
    Near(usize),
    Far(usize),
}

impl<N: Store, F: Store> Split<N, F> {
    /// A split with nothing in it. Over a store in use it takes no packet, and the packets below are not its own.
    pub fn new(near: N, far: F, bound: u8) -> Split<N, F>
        ensures kind { ⟦<<Split<N, F> as Store>::Kind as Kind>⟧.KIND ≡ 3 }
        ensures meaning { ⟦<Split<N, F> as Store>⟧.meaning result ≡ new_split (N.meaning near) (F.meaning far) }
        ensures bound { result.bound ≡ bound }
    {
        let near_used = near.used();
        let far_used = far.used();
        let clean = near_used == 0 && far_used == 0;
        Split {
            near,
            far,
            bound,
            clean,
            used: 0,
        }
    }

    // Where the packet of a name lies. What a store held before the split was made is nowhere.
    pub(crate) fn place(&self, name: Name) -> Result<Place, Question>
        ensures { Placed (N.meaning self.now.near) (F.meaning self.now.far) self.now.clean name result }
    {
        if !self.clean {
            return Err(Question::Alive);
        }
        match self.near.size(name) {
            Ok(size) => Ok(Place::Near(size)),
            Err(_) => self.far.size(name).map(Place::Far),
        }
    }
}

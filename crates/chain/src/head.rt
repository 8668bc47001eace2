//! What a chain's table keeps.

ghost use Rattle.std.specs.Prelude.{◌≡◌};
ghost use Rattle.chain.specs.Heads.{name_of, no_head};

use store::{Name, Named};

// What is kept of a packet: its name, who holds it, how many bytes it has, and the number of its first cell.
// No `Label`, whose size is a word: a head would have 40 bytes in place of 32, and a search of many would walk them all.
#[derive(Debug, Clone, Copy, PartialEq, Eq)]
pub(crate) struct Stored {
    pub(crate) name: Name,
    pub(crate) holder: u8,
    pub(crate) size: u16,
    pub(crate) first: usize,
}

/// A place of a chain's table, with what is kept of a packet, or without one.
#[derive(Debug, Clone, Copy, PartialEq, Eq)]
pub struct Head {
    pub(crate) packet: Option<Stored>,
}

impl Head {
    /// The record of no packet.
    pub fn free() -> Head
        ensures { result ≡ no_head }
    {
        Head { packet: None }
    }
}

impl Named for Head {
    ghost named = { λ s. name_of s.packet };

    fn name(&self) -> Option<Name> {
        self.packet.map(|stored| stored.name)
    }
}

//! Whole texts.
ghost use Rattle.std.specs.Prelude.{◌≡◌, take, Some};
ghost use Rattle.hex_text.specs.declared.text.Misprint.TheVariants.{NoMemory};
ghost use Rattle.hex_text.specs.Spelling.{Decodes, lines, misprint_text};

use crate::symbols::State;
use std::alloc::{AllocFailed, Global};
use std::error::Error;
use std::fmt;

/// Why a text gives no bytes.
#[derive(Debug, Clone, Copy, PartialEq, Eq)]
pub enum Misprint {
    /// What stands at this place is no part of such a text.
    Unknown { place: usize },
    /// The text ends between the two digits of a byte.
    Odd,
    /// There was no memory for the bytes.
    NoMemory,
}

/// What is wrong, without the place.
impl fmt::Display for Misprint {
    ghost output = { λ misprint. Some (misprint_text misprint) };

    fn fmt<W: fmt::Write>(&self, f: &mut fmt::Formatter<W>) -> fmt::Result {
        f.write_str(match self {
            Misprint::Unknown { .. } => "neither a hexadecimal digit nor white space",
            Misprint::Odd => "the text ends after the first digit of a byte",
            Misprint::NoMemory => "no memory for its bytes",
        })
    }
}

impl Error for Misprint {}

/// A byte that was not stored is a want of memory.
impl From<AllocFailed<u8>> for Misprint {
    ghost from_gives = { λ _ misprint. misprint ≡ NoMemory };

    fn from(_failed: AllocFailed<u8>) -> Misprint {
        Misprint::NoMemory
    }
}

/// The bytes that a text spells.
#[tactic(auto, using(crate::proofs::Steps::step_bad, crate::proofs::Steps::step_good))]
pub fn decode(heap: Global, text: &[u8]) -> Result<Vec<u8>, Misprint>
    ensures { Decodes text.now result }
{
    let mut bytes = Vec::new(heap);
    let mut state = State::default();
    for (place, symbol) in text.iter().enumerate() {
        let (next, complete) = state.step(*symbol).ok_or(Misprint::Unknown { place })?;
        state = next;
        if let Some(byte) = complete {
            bytes.push(byte)?;
        }
    }
    if state.first.is_some() {
        return Err(Misprint::Odd);
    }
    Ok(bytes)
}

/// How many lines of a text end before a place.
pub fn lines_before(text: &[u8], place: usize) -> usize
    ensures { result ≡ lines (take place text.now) }
{
    let before = &text[..place.min(text.len())];
    let mut count = 0;
    // A loop that adds up: a filter and its count take twice the time.
    for byte in before {
        if *byte == b'\n' {
            count += 1;
        }
    }
    count
}

//! The part of a program that is read.
ghost use Rattle.std.specs.Prelude.{◌≡◌, ◌+◌, ◌≤◌, ◌↔◌, length, take, IsOk, IfOk, IfErr};
ghost use Rattle.reader.specs.Faults.{fault};
ghost use Rattle.reader.specs.Fields.{half};

use crate::faults::Fault;
use crate::questions::Question;

/// The function that a fault outside records carries.
pub const OUTSIDE: u8 = 255;

/// The caller's bytes up to the end of a record or of the program, and the function that a fault there carries.
#[derive(Clone, Copy, Debug, PartialEq, Eq)]
pub struct Window<'a> {
    pub bytes: &'a [u8],
    // A number, `OUTSIDE` too, as the faults have it.
    pub function: u8,
}

impl<'a> Window<'a> {
    /// The window of the record of a function whose length stands at `place`, and the place after that length.
    pub fn record(
        program: &'a [u8],
        function: u8,
        place: usize,
    ) -> Result<(Window<'a>, usize), Fault>
        ensures inside { IsOk result ↔ (place + 2 + half program.now place ≤ length program.now) }
        ensures outside { IfErr result (λ e. e ≡ fault Question.Inside function place) }
        ensures bytes { IfOk result (λ x. x.0.bytes.now ≡ take (place + 2 + half program.now place) program.now) }
        ensures function { IfOk result (λ x. x.0.function ≡ function) }
        ensures first { IfOk result (λ x. x.1 ≡ place + 2) }
    {
        let whole = Window {
            bytes: program,
            function,
        };
        let (length, first) = whole.half(place)?;
        match program.get(..first + usize::from(length)) {
            Some(bytes) => Ok((Window { bytes, function }, first)),
            None => Err(whole.fault(Question::Inside, place)),
        }
    }
}

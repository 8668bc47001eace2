//! What a denial of a program carries.
ghost use Rattle.std.specs.Prelude.{◌≡◌, Some};
ghost use Rattle.reader.specs.Faults.{fault};
ghost use Rattle.reader.specs.Questions.{layer};
ghost use Rattle.reader.specs.Texts.{fault_text};

use crate::questions::Question;
use std::error::Error;
use std::fmt;

/// The first question answered no, where: the function (255 outside records), the byte place.
// The function is the number that a denial is reported with, so no `Option` stands for 255.
#[derive(Debug, Clone, Copy, PartialEq, Eq)]
pub struct Fault {
    pub question: Question,
    pub function: u8,
    pub place: usize,
}

impl Fault {
    /// The fault of a question, at a byte of a function.
    pub fn new(question: Question, function: u8, place: usize) -> Fault
        ensures { result ≡ fault question function place }
    {
        Fault {
            question,
            function,
            place,
        }
    }

    /// The layer that puts the question: 1 the bytes, 2 the signatures, 3 the bodies.
    pub fn layer(self) -> u8
        ensures { result ≡ layer self.question }
    {
        self.question.layer()
    }
}

/// The fault by its numbers.
impl fmt::Display for Fault {
    ghost output = { λ fault. Some (fault_text fault) };

    fn fmt<W: fmt::Write>(&self, f: &mut fmt::Formatter<W>) -> fmt::Result {
        let number = self.question.number();
        let layer = self.layer();
        let function = self.function;
        let place = self.place;
        write!(
            f,
            "question {number}, layer {layer}, function {function}, byte {place}"
        )
    }
}

impl Error for Fault {}

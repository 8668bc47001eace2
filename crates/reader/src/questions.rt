//! The questions that are put to a program.
ghost use Rattle.std.specs.Prelude.{◌≡◌, Some};
ghost use Rattle.reader.specs.Questions.{number, layer};
ghost use Rattle.reader.specs.Texts.{wording};

use std::fmt;

/// A question by what it asks; the first one answered no decides. Each has its number as discriminant.
#[derive(Debug, Clone, Copy, PartialEq, Eq)]
pub enum Question {
    // Layer 1: the bytes.
    Length = 20,
    Version = 21,
    Inside = 22,
    ThreadCount = 23,
    QueueCount = 24,
    FunctionCount = 25,
    DepthLimit = 26,
    ListLength = 27,
    KnownType = 28,
    KnownNode = 29,
    KnownValue = 30,
    Nesting = 31,
    BranchLength = 32,
    NothingLeft = 33,
    // Layer 2: the signatures.
    ThreadSignature = 40,
    NoAliasResult = 41,
    // Layer 3: the bodies.
    Callee = 50,
    Counts = 51,
    Bound = 52,
    Unspent = 53,
    Fits = 54,
    Once = 55,
    Room = 56,
    DepthRule = 57,
    OwnersSpent = 58,
}

impl Question {
    /// The number under which the question is reported.
    pub fn number(self) -> u8
        ensures { result ≡ number self }
    {
        self as u8
    }

    /// The layer that puts the question: 1 the bytes, 2 the signatures, 3 the bodies.
    pub fn layer(self) -> u8
        ensures { result ≡ layer self }
    {
        // Three ranges of the number say it shorter than a match of all cases.
        match self.number() {
            0..=39 => 1,
            40..=49 => 2,
            _ => 3,
        }
    }
}

/// The question as it is put; yes is the good answer.
impl fmt::Display for Question {
    ghost output = { λ question. Some (wording question) };

    fn fmt<W: fmt::Write>(&self, f: &mut fmt::Formatter<W>) -> fmt::Result {
        f.write_str(match self {
            Question::Length =>
                "has the input 2 to 4,096 bytes, and does its length field count the bytes after it?",
            Question::Version => "is the version 1?",
            Question::Inside =>
                "does this field, with the record it announces, lie inside what encloses it?",
            Question::ThreadCount => "are there 1 to 8 threads?",
            Question::QueueCount => "are there at most 6 own queues?",
            Question::FunctionCount =>
                "are there at least as many functions as threads, and at most 64?",
            Question::DepthLimit => "is the depth at most 7?",
            Question::ListLength => "is this count at most 8?",
            Question::KnownType => "is this type 1, 2, 3 or 4?",
            Question::KnownNode => "is this node's tag known?",
            Question::KnownValue => "is this value's tag known, and its truth byte 0 or 1?",
            Question::Nesting => "are there at most 16 ifs on this path?",
            Question::BranchLength =>
                "is the length given for the first branch the number of bytes it took?",
            Question::NothingLeft => "is no byte left over?",
            Question::ThreadSignature => "has a thread's function neither parameters nor results?",
            Question::NoAliasResult => "is this result type no alias?",
            Question::Callee => "is there a call of this kind and index?",
            Question::Counts => "do the counts of this call or return equal the signature's?",
            Question::Bound => "is this variable bound?",
            Question::Unspent => "is this variable unspent?",
            Question::Fits => "does the type of this value fit what is wanted here?",
            Question::Once =>
                "does no earlier value of this list name the variable that is given as packet?",
            Question::Room => "are at most 16 variables bound after this call?",
            Question::DepthRule => "does this call keep the depth rule?",
            Question::OwnersSpent => "is every owner on this path spent by this return?",
        })
    }
}

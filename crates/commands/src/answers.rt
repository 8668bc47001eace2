//! What a call on a store is answered by, and its text.
ghost use Rattle.std.specs.Prelude.{◌≡◌, Some};
ghost use Rattle.commands.specs.Answers.{answer_text, to_grant, to_number};

use std::fmt;
use store::Denial;

/// What a call on a store is answered by.
#[derive(Debug, Clone, Copy, PartialEq, Eq)]
pub(crate) enum Answer {
    Granted,
    Number(usize),
    Denied(Denial),
}

impl From<Result<(), Denial>> for Answer {
    ghost from_gives = { λ outcome answer. answer ≡ to_grant outcome };

    fn from(outcome: Result<(), Denial>) -> Answer {
        outcome.map_or_else(Answer::Denied, |()| Answer::Granted)
    }
}

impl From<Result<usize, Denial>> for Answer {
    ghost from_gives = { λ outcome answer. answer ≡ to_number outcome };

    fn from(outcome: Result<usize, Denial>) -> Answer {
        outcome.map_or_else(Answer::Denied, Answer::Number)
    }
}

/// As a script has it.
impl fmt::Display for Answer {
    ghost output = { λ answer. Some (answer_text answer) };

    fn fmt<W: fmt::Write>(&self, f: &mut fmt::Formatter<W>) -> fmt::Result {
        match self {
            Answer::Granted => write!(f, "granted"),
            Answer::Number(number) => write!(f, "{number}"),
            Answer::Denied(denial) => {
                let kind = denial.kind;
                let number = denial.question.number();
                write!(f, "denied {kind} {number}")
            }
        }
    }
}

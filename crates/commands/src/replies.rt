//! What a call on a machine is answered by, and its text.
ghost use Rattle.std.specs.Prelude.{◌≡◌, Some};
ghost use Rattle.machine.specs.Runs.{reply_of};
ghost use Rattle.commands.specs.Replies.{load_reply, arrive_reply, step_reply, ready_reply, collect_reply, replied, reply_text};

use machine::calls::Answer;
use reader::faults::Fault;
use rules::outcomes::Outcome;
use rules::questions::{Question, Refusal};
use std::fmt;

/// What a call on a machine is answered by. The buffer of a collect stands beside it.
#[derive(Debug, Clone, Copy, PartialEq, Eq)]
pub(crate) enum Reply {
    Granted,
    Denied(Question),
    /// The fault of the program that was to be loaded.
    Faulty(Fault),
    Stepped(Outcome),
    /// A thread that would advance.
    Ready(Option<u8>),
    /// How many bytes were collected.
    Collected(usize),
}

impl From<Result<(), Refusal>> for Reply {
    ghost from_gives = { λ outcome reply. reply ≡ load_reply outcome };

    fn from(outcome: Result<(), Refusal>) -> Reply {
        match outcome {
            Ok(()) => Reply::Granted,
            Err(Refusal::Denied(question)) => Reply::Denied(question),
            Err(Refusal::Faulty(fault)) => Reply::Faulty(fault),
        }
    }
}

impl From<Result<(), Question>> for Reply {
    ghost from_gives = { λ outcome reply. reply ≡ arrive_reply outcome };

    fn from(outcome: Result<(), Question>) -> Reply {
        outcome.map_or_else(Reply::Denied, |()| Reply::Granted)
    }
}

impl From<Result<Outcome, Question>> for Reply {
    ghost from_gives = { λ outcome reply. reply ≡ step_reply outcome };

    fn from(outcome: Result<Outcome, Question>) -> Reply {
        outcome.map_or_else(Reply::Denied, Reply::Stepped)
    }
}

impl From<Result<Option<u8>, Question>> for Reply {
    ghost from_gives = { λ outcome reply. reply ≡ ready_reply outcome };

    fn from(outcome: Result<Option<u8>, Question>) -> Reply {
        outcome.map_or_else(Reply::Denied, Reply::Ready)
    }
}

impl From<Result<usize, Question>> for Reply {
    ghost from_gives = { λ outcome reply. reply ≡ collect_reply outcome };

    fn from(outcome: Result<usize, Question>) -> Reply {
        outcome.map_or_else(Reply::Denied, Reply::Collected)
    }
}

impl<const N: usize> From<Answer<N>> for Reply {
    ghost from_gives = { λ answer reply. reply ≡ replied (reply_of answer) };

    fn from(answer: Answer<N>) -> Reply {
        match answer {
            Answer::Load(outcome) => outcome.into(),
            Answer::Arrive(outcome) => outcome.into(),
            Answer::Step(outcome) => outcome.into(),
            Answer::Ready(outcome) => outcome.into(),
            Answer::Collect(outcome, _buffer) => outcome.into(),
        }
    }
}

/// As a script has it.
impl fmt::Display for Reply {
    ghost output = { λ reply. Some (reply_text reply) };

    fn fmt<W: fmt::Write>(&self, f: &mut fmt::Formatter<W>) -> fmt::Result {
        match self {
            Reply::Granted => write!(f, "granted"),
            Reply::Denied(question) => write!(f, "denied {}", question.number()),
            Reply::Faulty(fault) => {
                let number = fault.question.number();
                let layer = fault.layer();
                let function = fault.function;
                let place = fault.place;
                write!(f, "fault {number} {layer} {function} {place}")
            }
            Reply::Stepped(Outcome::Advanced) => write!(f, "advance"),
            Reply::Stepped(Outcome::Waits(cause)) => write!(f, "wait {}", cause.number()),
            Reply::Stepped(Outcome::Ended) => write!(f, "ended"),
            Reply::Stepped(Outcome::Stuck) => write!(f, "stuck"),
            Reply::Ready(Some(thread)) => write!(f, "ready {thread}"),
            Reply::Ready(None) => write!(f, "ready none"),
            Reply::Collected(size) => write!(f, "size {size}"),
        }
    }
}

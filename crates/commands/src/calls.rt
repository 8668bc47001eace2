//! Calls on a store, of which a script has one a line.
ghost use Rattle.std.specs.Prelude.{◌≡◌};
ghost use Rattle.commands.specs.Calls.{call_answer, call_after};

use crate::answers::Answer;
use crate::packets::Dotted;
use crate::words::Words;
use std::fmt;
use store::{Name, Store, calls};

/// A call on a store, with its arguments.
#[derive(Debug, Clone, Copy, PartialEq, Eq)]
pub(crate) enum Call {
    Make { name: Name, size: usize },
    Discard(Name),
    Hand { name: Name, holder: u8 },
    Write { name: Name, offset: usize, byte: u8 },
    Read { name: Name, offset: usize },
    Size(Name),
    Holder(Name),
    Used,
    Need(usize),
    Capacity,
    Largest,
}

impl Call {
    /// The call that a line's words spell, the first of which is its command.
    pub(crate) fn read(command: &str, words: &mut Words) -> Option<Call> {
        Some(match command {
            "make" => Call::Make {
                name: words.name()?,
                size: words.number()?,
            },
            "drop" => Call::Discard(words.name()?),
            "hand" => Call::Hand {
                name: words.name()?,
                holder: words.number()?,
            },
            "write" => Call::Write {
                name: words.name()?,
                offset: words.number()?,
                byte: words.number()?,
            },
            "read" => Call::Read {
                name: words.name()?,
                offset: words.number()?,
            },
            "size" => Call::Size(words.name()?),
            "holder" => Call::Holder(words.name()?),
            "used" => Call::Used,
            "need" => Call::Need(words.number()?),
            "capacity" => Call::Capacity,
            "largest" => Call::Largest,
            _ => return None,
        })
    }

    /// Makes the call.
    pub(crate) fn run_on<S: Store>(self, store: &mut S) -> Answer
        ensures answer { result ≡ call_answer S.Kind.KIND (S.meaning store.old) self }
        ensures after { S.meaning store.new ≡ call_after (S.meaning store.old) self }
    {
        match self {
            Call::Make { name, size } => calls::make(store, name, size).into(),
            Call::Discard(name) => calls::discard(store, name).into(),
            Call::Hand { name, holder } => calls::hand(store, name, holder).map(|_| ()).into(),
            Call::Write { name, offset, byte } => calls::write(store, name, offset, byte).into(),
            Call::Read { name, offset } => calls::read(store, name, offset).map(usize::from).into(),
            Call::Size(name) => calls::size(store, name).into(),
            Call::Holder(name) => calls::holder(store, name).map(usize::from).into(),
            Call::Used => Answer::Number(store.used()),
            Call::Need(size) => Answer::Number(store.need(size)),
            Call::Capacity => Answer::Number(store.capacity()),
            Call::Largest => Answer::Number(store.largest()),
        }
    }
}

/// In plain words.
impl fmt::Display for Call {
    fn fmt<W: fmt::Write>(&self, f: &mut fmt::Formatter<W>) -> fmt::Result {
        match self {
            Call::Make { name, size } => write!(f, "make {} of {size} bytes", Dotted(*name)),
            Call::Discard(name) => write!(f, "drop {}", Dotted(*name)),
            Call::Hand { name, holder } => write!(f, "hand {} to {holder}", Dotted(*name)),
            Call::Write { name, offset, byte } => {
                write!(f, "write {byte} at {offset} of {}", Dotted(*name))
            }
            Call::Read { name, offset } => write!(f, "read at {offset} of {}", Dotted(*name)),
            Call::Size(name) => write!(f, "size of {}", Dotted(*name)),
            Call::Holder(name) => write!(f, "holder of {}", Dotted(*name)),
            Call::Used => write!(f, "units used"),
            Call::Need(size) => write!(f, "units that {size} bytes need"),
            Call::Capacity => write!(f, "units in all"),
            Call::Largest => write!(f, "largest packet"),
        }
    }
}

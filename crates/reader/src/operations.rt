//! What a call calls.
ghost use Rattle.std.specs.Prelude.{◌≡◌, Some};
ghost use Rattle.reader.specs.Operations.{operation};
ghost use Rattle.reader.specs.Texts.{operation_text, queue_name};

use std::fmt;

/// From two integers to an integer, modulo 2^32; the last three go bit by bit.
#[derive(Debug, Clone, Copy, PartialEq, Eq)]
pub enum Arithmetic {
    Add,
    Subtract,
    Times,
    BitAnd,
    BitOr,
    BitXor,
}

/// From two integers, unsigned, to a truth value.
#[derive(Debug, Clone, Copy, PartialEq, Eq)]
pub enum Comparison {
    Equal,
    Less,
}

/// From two truth values to a truth value.
#[derive(Debug, Clone, Copy, PartialEq, Eq)]
pub enum Connective {
    And,
    Or,
}

/// The callee of a call. Whether a queue or a function of that number exists is asked later.
// Queues by number, the two shared ones too, as the definitions of types and rules name them.
#[derive(Debug, Clone, Copy, PartialEq, Eq)]
pub enum Operation {
    Compute(Arithmetic),
    Compare(Comparison),
    Connect(Connective),
    New,
    Kill,
    Read,
    Update,
    Enq(u8),
    Deq(u8),
    Function(u8),
    /// A kind and an index that name nothing.
    Unknown(u8, u8),
}

/// The operation that a kind and an index name.
impl From<(u8, u8)> for Operation {
    ghost from_gives = { λ numbers result. result ≡ operation numbers.0 numbers.1 };

    #[inline(always)]
    fn from(numbers: (u8, u8)) -> Operation {
        match numbers {
            (0, 0) => Operation::Compute(Arithmetic::Add),
            (0, 1) => Operation::Compute(Arithmetic::Subtract),
            (0, 2) => Operation::Compute(Arithmetic::Times),
            (0, 3) => Operation::Compute(Arithmetic::BitAnd),
            (0, 4) => Operation::Compute(Arithmetic::BitOr),
            (0, 5) => Operation::Compute(Arithmetic::BitXor),
            (1, 0) => Operation::Compare(Comparison::Equal),
            (1, 1) => Operation::Compare(Comparison::Less),
            (2, 0) => Operation::Connect(Connective::And),
            (2, 1) => Operation::Connect(Connective::Or),
            (3, 0) => Operation::New,
            (3, 1) => Operation::Kill,
            (3, 2) => Operation::Read,
            (3, 3) => Operation::Update,
            (4, queue) => Operation::Enq(queue),
            (5, queue) => Operation::Deq(queue),
            (6, function) => Operation::Function(function),
            (kind, index) => Operation::Unknown(kind, index),
        }
    }
}

/// A queue as it is named: the first two are shared, and the others are the program's own.
#[derive(Debug, Clone, Copy, PartialEq, Eq)]
struct QueueName(u8);

impl fmt::Display for QueueName {
    ghost output = { λ queue. Some (queue_name queue.0) };

    fn fmt<W: fmt::Write>(&self, f: &mut fmt::Formatter<W>) -> fmt::Result {
        match self.0 {
            0 => write!(f, "receive"),
            1 => write!(f, "transmit"),
            queue => write!(f, "queue{queue}"),
        }
    }
}

/// The name of the operation; what names nothing is written by its two numbers.
impl fmt::Display for Operation {
    ghost output = { λ operation. Some (operation_text operation) };

    fn fmt<W: fmt::Write>(&self, f: &mut fmt::Formatter<W>) -> fmt::Result {
        match *self {
            Operation::Compute(Arithmetic::Add) => write!(f, "add"),
            Operation::Compute(Arithmetic::Subtract) => write!(f, "subtract"),
            Operation::Compute(Arithmetic::Times) => write!(f, "times"),
            Operation::Compute(Arithmetic::BitAnd) => write!(f, "bit_and"),
            Operation::Compute(Arithmetic::BitOr) => write!(f, "bit_or"),
            Operation::Compute(Arithmetic::BitXor) => write!(f, "bit_xor"),
            Operation::Compare(Comparison::Equal) => write!(f, "equal"),
            Operation::Compare(Comparison::Less) => write!(f, "less"),
            Operation::Connect(Connective::And) => write!(f, "and"),
            Operation::Connect(Connective::Or) => write!(f, "or"),
            Operation::New => write!(f, "new"),
            Operation::Kill => write!(f, "kill"),
            Operation::Read => write!(f, "read"),
            Operation::Update => write!(f, "update"),
            Operation::Enq(queue) => write!(f, "{}.enq", QueueName(queue)),
            Operation::Deq(queue) => write!(f, "{}.deq", QueueName(queue)),
            Operation::Function(function) => write!(f, "function{function}"),
            Operation::Unknown(kind, index) => write!(f, "unknown[{kind}, {index}]"),
        }
    }
}

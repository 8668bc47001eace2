//! The five calls as values, and what they answer.
use rules::outcomes::Outcome;
use rules::questions::{Question, Refusal};

/// A call of a machine. A collect goes into a buffer of `N` bytes, as they are before it.
#[derive(Clone, Copy)]
pub enum Call<'a, const N: usize> {
    Load { program: &'a [u8], limit: u32 },
    Arrive(&'a [u8]),
    Step(u8),
    Ready,
    Collect([u8; N]),
}

/// What a call answers; a collect also leaves its buffer.
#[derive(Clone, Copy)]
pub enum Answer<const N: usize> {
    Load(Result<(), Refusal>),
    Arrive(Result<(), Question>),
    Step(Result<Outcome, Question>),
    Ready(Result<Option<u8>, Question>),
    Collect(Result<usize, Question>, [u8; N]),
}

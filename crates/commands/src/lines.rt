//! One line of a script.
use crate::calls::Call;
use crate::refusals::Refusal;
use crate::requests::Request;
use crate::shapes::{Shape, amount};
use crate::words::Words;
use store::Name;

/// What stands between a line and its answer.
const ARROW: &str = " -> ";

/// The line whose place the state takes; what stands behind the word in a recorded one is passed over.
const STATE: &str = "state";

/// A half of a split.
#[derive(Debug, Clone, Copy, PartialEq, Eq)]
pub(crate) enum Side {
    Near,
    Far,
}

impl Side {
    fn read(word: &str) -> Option<Side> {
        match word {
            "near" => Some(Side::Near),
            "far" => Some(Side::Far),
            _ => None,
        }
    }
}

/// What a line asks for.
#[derive(Debug, Clone, Copy, PartialEq, Eq)]
pub(crate) enum Line<'a> {
    /// Nothing: a blank line, a comment, a script's name or its end.
    Plain,
    /// A new store.
    Store(Shape),
    /// A packet in a half of the split to come.
    Prior { side: Side, name: Name, size: usize },
    /// A packet, without an answer.
    Have { name: Name, size: usize },
    Call(Call),
    Request(Request<'a>),
    State,
}

/// A line without its answer, if one stands behind it.
pub(crate) fn without_answer(line: &str) -> &str {
    if line.starts_with('#') {
        return line;
    }
    if line.split(' ').next() == Some(STATE) {
        return STATE;
    }
    line.split_once(ARROW)
        .map_or(line, |(asked, _answer)| asked)
}

impl<'a> Line<'a> {
    /// What a line without an answer asks for.
    pub(crate) fn read(line: &'a str) -> Result<Line<'a>, Refusal> {
        if line.trim().is_empty() || line.starts_with('#') {
            return Ok(Line::Plain);
        }
        let mut words = Words::of(line);
        let command = words.word().unwrap_or("");
        let read = match command {
            "store" => Line::Store(Shape::read(&mut words)?),
            "collect" => Line::Request(Request::Collect(amount(&mut words)?)),
            _ => Line::of(command, &mut words).ok_or(Refusal::NotUnderstood)?,
        };
        words.end().ok_or(Refusal::NotUnderstood)?;
        Ok(read)
    }

    /// What a command other than `store` asks for, with the words behind it.
    fn of(command: &str, words: &mut Words<'a>) -> Option<Line<'a>> {
        Some(match command {
            "script" => {
                words.pass_over();
                Line::Plain
            }
            "end" => Line::Plain,
            "prior" => Line::Prior {
                side: Side::read(words.word()?)?,
                name: words.name()?,
                size: words.number()?,
            },
            "have" => Line::Have {
                name: words.name()?,
                size: words.number()?,
            },
            STATE => Line::State,
            _ => match Request::read(command, words) {
                Some(request) => Line::Request(request),
                None => Line::Call(Call::read(command, words)?),
            },
        })
    }
}

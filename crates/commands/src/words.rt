//! The words of a line.
use std::str::FromStr;
use store::Name;

/// What is left of a line, in words with single blanks between them.
#[derive(Debug, Clone, Copy, PartialEq, Eq)]
pub(crate) struct Words<'a> {
    rest: Option<&'a str>,
}

impl<'a> Words<'a> {
    pub(crate) fn of(line: &'a str) -> Words<'a> {
        Words { rest: Some(line) }
    }

    /// The next word.
    pub(crate) fn word(&mut self) -> Option<&'a str> {
        let rest = self.rest.take()?;
        match rest.split_once(' ') {
            Some((word, rest)) => {
                self.rest = Some(rest);
                Some(word)
            }
            None => Some(rest),
        }
    }

    /// Passes over all that is left.
    pub(crate) fn pass_over(&mut self) {
        self.rest = None;
    }

    /// The next word as a number.
    pub(crate) fn number<N: FromStr>(&mut self) -> Option<N>
    where
        N::Err: Drop,
    {
        let word = self.word()?;
        // `parse` would take a sign.
        if word.starts_with('+') {
            return None;
        }
        word.parse().ok()
    }

    /// The next two words as a packet's name.
    pub(crate) fn name(&mut self) -> Option<Name> {
        Some(Name {
            maker: self.number()?,
            count: self.number()?,
        })
    }

    /// Nothing where a word is left.
    pub(crate) fn end(self) -> Option<()> {
        self.rest.is_none().then_some(())
    }
}

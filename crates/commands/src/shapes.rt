//! Which store a script asks for.
use crate::refusals::Refusal;
use crate::words::Words;

/// The most bytes of memory, records, heads or links of one store.
pub(crate) const MOST: usize = 1_048_576;

/// A store over lent memory, by the sizes of what is lent.
#[derive(Debug, Clone, Copy, PartialEq, Eq)]
pub(crate) enum Leaf {
    Slab {
        memory: usize,
        slots: usize,
    },
    Chain {
        memory: usize,
        heads: usize,
        links: usize,
    },
}

/// Two stores, and the last holder whose packets lie in the near one.
#[derive(Debug, Clone, Copy, PartialEq, Eq)]
pub(crate) struct Pair<H> {
    pub(crate) bound: u8,
    pub(crate) near: H,
    pub(crate) far: H,
}

/// A half of a split.
#[derive(Debug, Clone, Copy, PartialEq, Eq)]
pub(crate) enum Half {
    Leaf(Leaf),
    Split(Pair<Leaf>),
}

/// A store. The types say how deep splits nest: code for a store of any depth would have no end.
#[derive(Debug, Clone, Copy, PartialEq, Eq)]
pub(crate) enum Shape {
    Leaf(Leaf),
    Split(Pair<Half>),
}

impl Leaf {
    /// The store that the words behind its first one spell.
    fn read(first: &str, words: &mut Words) -> Result<Leaf, Refusal> {
        match first {
            "slab" => Ok(Leaf::Slab {
                memory: amount(words)?,
                slots: amount(words)?,
            }),
            "chain" => Ok(Leaf::Chain {
                memory: amount(words)?,
                heads: amount(words)?,
                links: amount(words)?,
            }),
            _ => Err(Refusal::NotUnderstood),
        }
    }
}

impl Half {
    fn read(words: &mut Words) -> Result<Half, Refusal> {
        let first = word(words)?;
        if first != "(" {
            return Leaf::read(first, words).map(Half::Leaf);
        }
        expect(words, "split")?;
        let bound = words.number().ok_or(Refusal::NotUnderstood)?;
        let near = Half::leaf(words)?;
        expect(words, "/")?;
        let far = Half::leaf(words)?;
        expect(words, ")")?;
        Ok(Half::Split(Pair { bound, near, far }))
    }

    /// A half of a half.
    fn leaf(words: &mut Words) -> Result<Leaf, Refusal> {
        match word(words)? {
            "(" => Err(Refusal::TooDeep),
            first => Leaf::read(first, words),
        }
    }
}

impl Shape {
    /// The store that the words behind `store` spell.
    pub(crate) fn read(words: &mut Words) -> Result<Shape, Refusal> {
        let first = word(words)?;
        if first != "split" {
            return Leaf::read(first, words).map(Shape::Leaf);
        }
        let bound = words.number().ok_or(Refusal::NotUnderstood)?;
        let near = Half::read(words)?;
        expect(words, "/")?;
        let far = Half::read(words)?;
        Ok(Shape::Split(Pair { bound, near, far }))
    }
}

fn word<'a>(words: &mut Words<'a>) -> Result<&'a str, Refusal> {
    words.word().ok_or(Refusal::NotUnderstood)
}

fn expect(words: &mut Words, wanted: &str) -> Result<(), Refusal> {
    let found = word(words)?;
    if found == wanted {
        Ok(())
    } else {
        Err(Refusal::NotUnderstood)
    }
}

/// The next word as a size of what is lent.
pub(crate) fn amount(words: &mut Words) -> Result<usize, Refusal> {
    let amount = words.number().ok_or(Refusal::NotUnderstood)?;
    if amount > MOST {
        return Err(Refusal::TooLarge);
    }
    Ok(amount)
}

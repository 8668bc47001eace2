//! `paclang script`: calls, one a line, each written back with its answer.
use crate::lending::{InUse, Lend};
use crate::lines::{Line, Side, without_answer};
use crate::sessions::Session;
use crate::shapes::{Pair, Shape};
use std::alloc::{AllocError, Global};
use std::io;
use std::io::{BufRead, BufReader};
use std::process::ExitCode;
use store::Name;

/// Plays the script on standard input; what one store's lines come to is written before the next store's are played.
pub(crate) fn play_input(rt: &HostRuntime) -> io::Result<ExitCode> {
    let heap = rt.alloc();
    let mut part = Part::first(heap);
    for line in BufReader::new(heap, rt.stdin())?.lines(heap) {
        let line = line?;
        if let Ok(Line::Store(shape)) = Line::read(without_answer(line.as_str())) {
            rt.print(part.play(heap)?)?;
            part = part.next(heap, shape)?;
        }
        part.lines.push(line)?;
    }
    rt.print(part.play(heap)?)?;
    Ok(ExitCode::SUCCESS)
}

/// The lines from one store to the next.
#[derive(Debug, Drop)]
struct Part {
    /// None before the first store.
    shape: Option<Shape>,
    /// What the halves hold when a split is made over them.
    near: Vec<(Name, usize)>,
    far: Vec<(Name, usize)>,
    lines: Vec<String>,
}

impl Part {
    /// What stands before the first store.
    fn first(heap: Global) -> Part {
        Part {
            shape: None,
            near: Vec::new(heap),
            far: Vec::new(heap),
            lines: Vec::new(heap),
        }
    }

    /// The part that begins with a store behind these lines.
    fn next(&self, heap: Global, shape: Shape) -> Result<Part, AllocError> {
        let mut next = Part::first(heap);
        next.shape = Some(shape);
        for line in self.lines.iter() {
            match Line::read(without_answer(line.as_str())) {
                Ok(
                    Line::Prior {
                        side: Side::Near,
                        name,
                        size,
                    },
                ) => next.near.push((name, size))?,
                Ok(
                    Line::Prior {
                        side: Side::Far,
                        name,
                        size,
                    },
                ) => next.far.push((name, size))?,
                _ => {}
            }
        }
        Ok(next)
    }

    /// The lines with their answers.
    fn play(&self, heap: Global) -> Result<String, AllocError> {
        let session = Session {
            heap,
            lines: &self.lines,
        };
        match &self.shape {
            None => session.refuse(),
            Some(Shape::Leaf(leaf)) => leaf.lend(heap, session),
            Some(Shape::Split(pair)) => Pair {
                bound: pair.bound,
                near: InUse {
                    half: &pair.near,
                    packets: &self.near,
                },
                far: InUse {
                    half: &pair.far,
                    packets: &self.far,
                },
            }
            .lend(heap, session),
        }
    }
}

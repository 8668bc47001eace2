//! `paclang run`: a program at work, from its load until it has nothing to do, each call with its answer.
ghost use Rattle.std.specs.Prelude.{◌≡◌, ◌↔◌, IsTrue};

use crate::denial::deny;
use crate::lending::{Lend, Visitor};
use crate::loading::load;
use crate::shapes::{Leaf, Pair};
use crate::tasks::{Answer, Call, Record, Task};
use machine::runs::run;
use rules::questions::Refusal;
use std::alloc::{AllocError, Global};
use std::process::ExitCode;
use std::{fmt, io};
use store::Store;

const SLAB: Leaf = Leaf::Slab {
    memory: 4096,
    slots: 16,
};

const CHAIN: Leaf = Leaf::Chain {
    memory: 2048,
    heads: 64,
    links: 64,
};

/// A store to run over.
#[derive(Debug, Clone, Copy, PartialEq, Eq)]
pub(crate) enum Kind {
    Slab,
    Chain,
    Split,
}

impl Kind {
    pub(crate) fn read(word: &str) -> Option<Kind> {
        match word {
            "slab" => Some(Kind::Slab),
            "chain" => Some(Kind::Chain),
            "split" => Some(Kind::Split),
            _ => None,
        }
    }
}

impl Lend for Kind {
    fn lend<V: Visitor>(&self, heap: Global, visitor: V) -> Result<V::Output, AllocError> {
        match self {
            Kind::Slab => SLAB.lend(heap, visitor),
            Kind::Chain => CHAIN.lend(heap, visitor),
            Kind::Split => {
                let pair = Pair {
                    bound: 0,
                    near: SLAB,
                    far: CHAIN,
                };
                pair.lend(heap, visitor)
            }
        }
    }
}

/// In plain words.
impl fmt::Display for Kind {
    fn fmt<W: fmt::Write>(&self, f: &mut fmt::Formatter<W>) -> fmt::Result {
        f.write_str(match self {
            Kind::Slab => "a slab of 16 slots",
            Kind::Chain => "a chain of 64 cells",
            Kind::Split => {
                "a split: what the network holds in a slab of 16 slots, what threads hold in a chain of 64 cells"
            }
        })
    }
}

/// What comes from the network: for the sample of a door lock that card 5 is cancelled, and that card 77 asks for door 3.
const PACKETS: [[u8; 6]; 2] = [[2, 1, 0, 5, 0, 6], [1, 3, 0, 77, 0, 79]];

/// Runs the program in a file over a store: success where it is loaded, and the same calls are answered alike once more.
pub(crate) fn run_file(rt: &HostRuntime, path: &str, kind: Kind) -> io::Result<ExitCode> {
    let heap = rt.alloc();
    let Some(program) = load(rt, path)? else {
        return Ok(ExitCode::FAILURE);
    };
    println!(rt; "over {kind}")?;
    let packets = PACKETS;
    let task = Task {
        heap,
        program: &program,
        packets: &packets,
    };
    let Record {
        text,
        calls,
        answers,
    } = kind.lend(heap, task)?;
    rt.print(text)?;
    if let Some(Answer::Load(Err(Refusal::Faulty(fault)))) = answers.first() {
        return deny(rt, *fault);
    }
    let again = Again {
        heap,
        calls: &calls,
        answers: &answers,
    };
    let count = calls.len();
    if !kind.lend(heap, again)? {
        println!(rt; "the same {count} calls once more, over a fresh store: other answers")?;
        return Ok(ExitCode::FAILURE);
    }
    println!(rt; "the same {count} calls once more, over a fresh store: the same answers")?;
    Ok(ExitCode::SUCCESS)
}

/// The calls of a task made once more, in one run.
#[derive(Drop)]
struct Again<'a> {
    heap: Global,
    calls: &'a [Call<'a>],
    answers: &'a [Answer],
}

impl Visitor for Again<'_> {
    type Output = bool;

    /// Whether the answers are the same.
    fn visit<S: Store + Drop>(self, store: S) -> Result<bool, AllocError> {
        let Again {
            heap,
            calls,
            answers,
        } = self;
        let mut found = vec![in heap; Answer::Ready(Ok(None)); calls.len()]?;
        let _machine = run(store, calls, &mut found);
        Ok(
            found
                .iter()
                .zip(answers)
                .all(|(one, other)| agree(one, other)),
        )
    }
}

/// Whether two answers are the same, their buffers too.
fn agree(one: &Answer, other: &Answer) -> bool
    ensures { IsTrue result ↔ (one.now ≡ other.now) }
{
    match (one, other) {
        (Answer::Load(one), Answer::Load(other)) => one == other,
        (Answer::Arrive(one), Answer::Arrive(other)) => one == other,
        (Answer::Step(one), Answer::Step(other)) => one == other,
        (Answer::Ready(one), Answer::Ready(other)) => one == other,
        (Answer::Collect(one, buffer), Answer::Collect(other, filled)) => {
            one == other && buffer == filled
        }
        _ => false,
    }
}

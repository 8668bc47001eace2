//! `paclang stores`: calls on a store, each with its answer in plain words.
use crate::answers::Answer;
use crate::calls::Call;
use crate::lending::{Lend, Visitor};
use crate::shapes::{Half, Leaf, Pair};
use std::alloc::{AllocError, Global};
use std::io;
use std::process::ExitCode;
use store::{Denial, Name, Question, Store};

const SLAB: Leaf = Leaf::Slab {
    memory: 1024,
    slots: 4,
};

const CHAIN: Leaf = Leaf::Chain {
    memory: 160,
    heads: 5,
    links: 5,
};

const ONE: Name = Name { maker: 1, count: 0 };

const OTHER: Name = Name { maker: 2, count: 0 };

const CALLS: [Call; 19] = [
    Call::Capacity,
    Call::Largest,
    Call::Need(40),
    Call::Make {
        name: ONE,
        size: 40,
    },
    Call::Used,
    Call::Write {
        name: ONE,
        offset: 0,
        byte: 72,
    },
    Call::Write {
        name: ONE,
        offset: 39,
        byte: 105,
    },
    Call::Hand {
        name: ONE,
        holder: 3,
    },
    Call::Holder(ONE),
    Call::Read {
        name: ONE,
        offset: 0,
    },
    Call::Hand {
        name: ONE,
        holder: 7,
    },
    Call::Read {
        name: ONE,
        offset: 39,
    },
    Call::Make { name: ONE, size: 8 },
    Call::Make {
        name: OTHER,
        size: 257,
    },
    Call::Make {
        name: OTHER,
        size: 65,
    },
    Call::Read {
        name: ONE,
        offset: 40,
    },
    Call::Discard(ONE),
    Call::Size(ONE),
    Call::Used,
];

/// Makes the calls on a split with a split in it.
pub(crate) fn show_stores(rt: &HostRuntime) -> io::Result<ExitCode> {
    let heap = rt.alloc();
    println!(rt; "packets of holders 0 and 1: a slab of 4 slots")?;
    println!(rt; "packets of holders 2 to 5: a chain of 5 cells")?;
    println!(rt; "packets of the others: another slab of 4 slots")?;
    let near = Half::Split(Pair {
        bound: 1,
        near: SLAB,
        far: CHAIN,
    });
    let far = Half::Leaf(SLAB);
    let shape = Pair {
        bound: 5,
        near,
        far,
    };
    rt.print(shape.lend(heap, Showing { heap })?)?;
    Ok(ExitCode::SUCCESS)
}

#[derive(Drop)]
struct Showing {
    heap: Global,
}

impl Visitor for Showing {
    type Output = String;

    fn visit<S: Store + Drop>(self, mut store: S) -> Result<String, AllocError> {
        let mut text = String::new(self.heap);
        for call in CALLS {
            match call.run_on(&mut store) {
                Answer::Denied(Denial { question, kind }) => {
                    let number = question.number();
                    let wording = wording(question);
                    writeln!(
                        text,
                        "{call}: denied, {wording} (question {number}, kind {kind})"
                    )?
                }
                answer => writeln!(text, "{call}: {answer}")?,
            }
        }
        Ok(text)
    }
}

/// The question that was answered by no.
fn wording(question: Question) -> &'static str {
    match question {
        Question::Unused => "is the name not alive?",
        Question::Fits => "is the size at most the largest?",
        Question::Room => "is used plus need at most the capacity?",
        Question::Alive => "is the name alive?",
        Question::Inside => "is the offset below the size?",
    }
}

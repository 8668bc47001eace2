//! `paclang time-stores`: many calls on a full store, to be timed from outside.
use crate::answers::Answer;
use crate::calls::Call;
use crate::lending::{Lend, Visitor};
use crate::shapes::{Half, Leaf, Pair, Shape};
use std::alloc::AllocError;
use std::io;
use std::process::ExitCode;
use store::{Name, Store};

/// The bytes of each packet, a cell of a chain.
const SIZE: usize = 32;

/// Calls on a store that packets fill.
#[derive(Debug, Clone, Copy, PartialEq, Eq)]
pub(crate) struct Trial {
    shape: Shape,
    mix: Mix,
}

impl Trial {
    /// The kind of store, how many packets fill it, and how many calls are made.
    pub(crate) fn read(kind: &str, packets: &str, calls: &str) -> Option<Trial> {
        let packets = packets.parse().ok()?;
        let calls = calls.parse().ok()?;
        Some(Trial {
            shape: filled(kind, packets)?,
            mix: Mix { packets, calls },
        })
    }

    /// Makes the calls, and writes how many were granted.
    pub(crate) fn run(self, rt: &HostRuntime) -> io::Result<ExitCode> {
        let Trial { shape, mix } = self;
        let granted = match shape {
            Shape::Leaf(leaf) => leaf.lend(rt.alloc(), mix)?,
            Shape::Split(pair) => pair.lend(rt.alloc(), mix)?,
        };
        let Mix { packets, calls } = mix;
        println!(rt; "{packets} packets, {calls} calls: {granted} granted")?;
        Ok(ExitCode::SUCCESS)
    }
}

/// A store that so many packets fill.
fn filled(kind: &str, packets: u16) -> Option<Shape> {
    let packets = usize::from(packets);
    let slab = Leaf::Slab {
        memory: 256 * packets,
        slots: packets,
    };
    let chain = Leaf::Chain {
        memory: SIZE * packets,
        heads: packets,
        links: packets,
    };
    match kind {
        "slab" => Some(Shape::Leaf(slab)),
        "chain" => Some(Shape::Leaf(chain)),
        "split" => Some(Shape::Split(Pair {
            bound: 3,
            near: Half::Leaf(slab),
            far: Half::Leaf(chain),
        })),
        _ => None,
    }
}

/// Calls of six kinds in turn, on names that lie apart in the table.
#[derive(Debug, Clone, Copy, PartialEq, Eq)]
struct Mix {
    packets: u16,
    calls: u32,
}

impl Mix {
    /// The name of a packet by its number. Makers 0 to 7 have the same share.
    fn name(number: u16) -> Name {
        Name {
            maker: (number % 8) as u8,
            count: u32::from(number / 8),
        }
    }

    fn call(self, turn: u32) -> Call {
        let round = turn / 6;
        let number = u64::from(round) * 7919 % u64::from(self.packets.max(1));
        let name = Mix::name(number as u16);
        let byte = (round % 256) as u8;
        let offset = round as usize % SIZE;
        match turn % 6 {
            0 => Call::Write { name, offset, byte },
            1 => Call::Read { name, offset },
            2 => Call::Hand {
                name,
                holder: byte % 8,
            },
            3 => Call::Size(name),
            4 => Call::Discard(name),
            _ => Call::Make { name, size: SIZE },
        }
    }
}

impl Visitor for Mix {
    type Output = u32;

    /// How many of the calls were granted.
    fn visit<S: Store + Drop>(self, mut store: S) -> Result<u32, AllocError> {
        for number in 0..self.packets {
            let _ = store.make(Mix::name(number), SIZE);
        }
        let mut granted = 0u32;
        for turn in 0..self.calls {
            let answer = self.call(turn).run_on(&mut store);
            if !matches!(answer, Answer::Denied(_)) {
                granted = granted.saturating_add(1);
            }
        }
        Ok(granted)
    }
}

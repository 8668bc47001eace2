//! Memory for stores, whose shape is known only when a script is read.
//! A store borrows its memory, and its type says its shape: so code that is to work on one is a [`Visitor`], which is
//! handed a store of the shape that was asked for, and which is compiled for each.
use crate::shapes::{Half, Leaf, Pair, Shape};
use chain::{Head, chain_over};
use slab_store::{Slot, slab_over};
use split::Split;
use std::alloc::{AllocError, Global};
use store::{Name, Store};

/// What is in memory before it is lent; a store starts empty over any.
pub(crate) const LEFT_OVER: u8 = 0xAA;

/// Work on a store of any type.
pub(crate) trait Visitor: Drop {
    type Output;

    fn visit<S: Store + Drop>(self, store: S) -> Result<Self::Output, AllocError>;
}

/// A store to be made.
pub(crate) trait Lend: Drop {
    /// Makes the store over memory of its own, and hands it on.
    fn lend<V: Visitor>(&self, heap: Global, visitor: V) -> Result<V::Output, AllocError>;
}

impl Lend for Leaf {
    fn lend<V: Visitor>(&self, heap: Global, visitor: V) -> Result<V::Output, AllocError> {
        match *self {
            Leaf::Slab { memory, slots } => {
                let mut memory = vec![in heap; LEFT_OVER; memory]?;
                let mut slots = vec![in heap; Slot::free(); slots]?;
                visitor.visit(slab_over(&mut memory, &mut slots))
            }
            Leaf::Chain {
                memory,
                heads,
                links,
            } => {
                let mut memory = vec![in heap; LEFT_OVER; memory]?;
                let mut links = vec![in heap; 0; links]?;
                let mut heads = vec![in heap; Head::free(); heads]?;
                visitor.visit(chain_over(&mut memory, &mut links, &mut heads))
            }
        }
    }
}

impl<H: Lend> Lend for Pair<H> {
    fn lend<V: Visitor>(&self, heap: Global, visitor: V) -> Result<V::Output, AllocError> {
        self.near.lend(
            heap,
            Near {
                pair: self,
                heap,
                visitor,
            },
        )
    }
}

impl Lend for Half {
    fn lend<V: Visitor>(&self, heap: Global, visitor: V) -> Result<V::Output, AllocError> {
        match self {
            Half::Leaf(leaf) => leaf.lend(heap, visitor),
            Half::Split(pair) => pair.lend(heap, visitor),
        }
    }
}

/// The store with packets in it before the work begins.
#[derive(Drop)]
pub(crate) struct InUse<'a, H> {
    pub(crate) half: &'a H,
    pub(crate) packets: &'a [(Name, usize)],
}

impl<H: Lend> Lend for InUse<'_, H> {
    fn lend<V: Visitor>(&self, heap: Global, visitor: V) -> Result<V::Output, AllocError> {
        self.half.lend(
            heap,
            Filling {
                packets: self.packets,
                visitor,
            },
        )
    }
}

/// Waits for the near store of a split.
#[derive(Drop)]
struct Near<'a, H, V> {
    pair: &'a Pair<H>,
    heap: Global,
    visitor: V,
}

impl<H: Lend, V: Visitor> Visitor for Near<'_, H, V> {
    type Output = V::Output;

    fn visit<S: Store + Drop>(self, near: S) -> Result<V::Output, AllocError> {
        let Near {
            pair,
            heap,
            visitor,
        } = self;
        let bound = pair.bound;
        pair.far.lend(
            heap,
            Far {
                near,
                bound,
                visitor,
            },
        )
    }
}

/// Waits for the far store of a split, the near one at hand.
#[derive(Drop)]
struct Far<N, V> {
    near: N,
    bound: u8,
    visitor: V,
}

impl<N: Store + Drop, V: Visitor> Visitor for Far<N, V> {
    type Output = V::Output;

    fn visit<S: Store + Drop>(self, far: S) -> Result<V::Output, AllocError> {
        let Far {
            near,
            bound,
            visitor,
        } = self;
        visitor.visit(Split::new(near, far, bound))
    }
}

/// Makes packets first.
#[derive(Drop)]
struct Filling<'a, V> {
    packets: &'a [(Name, usize)],
    visitor: V,
}

impl<V: Visitor> Visitor for Filling<'_, V> {
    type Output = V::Output;

    fn visit<S: Store + Drop>(self, mut store: S) -> Result<V::Output, AllocError> {
        let Filling { packets, visitor } = self;
        for (name, size) in packets {
            let _ = store.make(*name, *size);
        }
        visitor.visit(store)
    }
}

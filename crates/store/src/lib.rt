//! Packet stores: names, questions and denials, what each store promises, and the calls over any of them.

#![tactic(auto)]

pub mod calls;
pub mod denial;
pub mod kind;
pub mod label;
pub mod lent;
pub mod lent_store;
pub mod name;
pub mod named;
pub mod store;
pub mod zeros;

pub use denial::{Denial, Handed, Question};
pub use kind::{Kind, KindOf};
pub use label::Label;
pub use lent::Lent;
pub use lent_store::LentStore;
pub use name::Name;
pub use named::{Named, find};
pub use store::Store;
pub use zeros::clear;

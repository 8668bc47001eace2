//! What variables hold.
use store::Name;

/// What a variable of a running function holds.
// No `Option` around the other four: the rules match all five at once, which is as plain.
#[derive(Debug, Clone, Copy, PartialEq, Eq)]
pub enum Held {
    /// A spent owner's variable.
    Nothing,
    Integer(u32),
    Truth(bool),
    Owner(Name),
    Alias(Name),
}

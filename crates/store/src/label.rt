//! What a table keeps of a packet.

use crate::name::Name;

/// What is kept of a packet beside its bytes: its name, who holds it, and how many bytes it has.
#[derive(Debug, Clone, Copy, PartialEq, Eq)]
pub struct Label {
    pub name: Name,
    pub holder: u8,
    pub size: usize,
}

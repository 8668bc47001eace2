//! Records of slots.
ghost use Rattle.std.specs.Prelude.{◌≡◌, ◌≤◌, None, Some};
ghost use Rattle.store.specs.declared.label.Label.{Label};
ghost use Rattle.slab_store.specs.Labels.{name_of};

use store::{Label, Name, Named};

/// What a slab keeps of one slot: the label of the packet in it, or none.
#[derive(Debug, Clone, Copy, PartialEq, Eq)]
pub struct Slot {
    pub(crate) label: Option<Label>,
    ghost small: { (l : Label) → label ≡ Some l → l.size ≤ 256 },
}

impl Slot {
    /// The record of a slot without a packet.
    pub fn free() -> Slot
        ensures { result.label ≡ None }
    {
        Slot { label: None }
    }
}

impl Named for Slot {
    ghost named = { λ s. name_of s.label };

    fn name(&self) -> Option<Name> {
        self.label.map(|label| label.name)
    }
}

//! Zeros in lent memory.

ghost use Rattle.std.specs.Prelude.{◌≡◌, length, replicate};

/// Lays zeros in each byte.
pub fn clear(part: &mut [u8])
    ensures { part.new ≡ replicate (length part.old) 0 }
{
    part.fill(0);
}

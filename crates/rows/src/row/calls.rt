//! What can be done with a row.
ghost use Rattle.std.specs.Prelude.{◌≡◌, ◌+◌, ◌<◌, ◌≤◌, ◌↔◌, [], ◌∷◌, ◌++◌, length, slice_get, slice_set, IsTrue, IsOk, OnOk, OnErr, IfSome, IfNone};
ghost use Rattle.rows.specs.Rows.{items};

use super::{Full, Row};

impl<T: Copy, const N: usize> Row<T, N> {
    /// A row of none; the filler only takes the place of values to come.
    pub fn new(filler: T) -> Self
        ensures { items result ≡ [] }
    {
        Row {
            len: 0,
            items: [filler; N],
        }
    }

    pub fn as_slice(&self) -> &[T]
        ensures { result.now ≡ items self.now }
    {
        &self.items[..self.len]
    }

    pub fn len(&self) -> usize
        ensures { result ≡ length (items self.now) }
    {
        self.as_slice().len()
    }

    pub fn is_empty(&self) -> bool
        ensures { IsTrue result ↔ (items self.now ≡ []) }
    {
        self.as_slice().is_empty()
    }

    /// The value at a place, if there is one.
    pub fn get(&self, i: usize) -> Option<T>
        ensures { result ≡ slice_get (items self.now) i }
    {
        self.as_slice().get(i).copied()
    }

    /// Another value at a place; nothing changes where there is none.
    pub fn put(&mut self, i: usize, x: T)
        ensures { items self.new ≡ slice_set (items self.old) i x }
    {
        if i < self.len {
            self.items[i] = x;
        }
    }

    /// All values leave.
    pub fn clear(&mut self)
        ensures { items self.new ≡ [] }
    {
        self.len = 0;
    }

    /// The last value leaves.
    pub fn pop(&mut self) -> Option<T>
        ensures last { IfSome result (λ x. items self.old ≡ items self.new ++ x ∷ []) }
        ensures none { IfNone result ((items self.old ≡ []) × (self.new ≡ self.old)) }
    {
        let last = self.len.checked_sub(1)?;
        self.len = last;
        Some(self.items[last])
    }

    /// The first value leaves, and the others move up by one.
    pub fn remove_first(&mut self) -> Option<T>
        ensures first { IfSome result (λ x. items self.old ≡ x ∷ items self.new) }
        ensures none { IfNone result ((items self.old ≡ []) × (self.new ≡ self.old)) }
    {
        let first = self.get(0)?;
        self.items.copy_within(1..self.len, 0);
        self.len -= 1;
        Some(first)
    }

    /// One value more at the end.
    pub fn push(&mut self, x: T) -> Result<(), Full>
        ensures room { IsOk result ↔ (length (items self.old) < N) }
        ensures ok { OnOk result (items self.new ≡ items self.old ++ x ∷ []) }
        ensures err { OnErr result (self.new ≡ self.old) }
    {
        let end = self.len;
        if end >= N {
            return Err(Full);
        }
        self.items[end] = x;
        self.len = end + 1;
        Ok(())
    }

    /// More values at the end, in their order: all of them, or none.
    pub fn extend(&mut self, values: &[T]) -> Result<(), Full>
        ensures room { IsOk result ↔ (length (items self.old) + length values.now ≤ N) }
        ensures ok { OnOk result (items self.new ≡ items self.old ++ values.now) }
        ensures err { OnErr result (self.new ≡ self.old) }
    {
        let start = self.len;
        if values.len() > N - start {
            return Err(Full);
        }
        let end = start + values.len();
        let items = &mut self.items[..];
        items[start..end].copy_from_slice(values);
        self.len = end;
        Ok(())
    }
}

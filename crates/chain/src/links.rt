//! Walks over links: a cell's link is the number of the cell behind it.

ghost use Rattle.std.specs.Prelude.{◌≡◌};
ghost use Rattle.chain.specs.Cells.{step, nth_cell};

// The cell that lies so many links behind the first.
pub(crate) fn cell_at(links: &[usize], first: usize, steps: usize) -> usize
    ensures { result ≡ nth_cell links.now first steps }
{
    (0..steps).fold(first, |cell, _| next_cell(links, cell))
}

// The cell that a cell's link names; 0 past the table and no `Option`, as the definition of a walk has it; no walk over a packet's cells gets there.
fn next_cell(links: &[usize], cell: usize) -> usize
    ensures { result ≡ step links.now cell }
{
    links.get(cell).copied().unwrap_or(0)
}

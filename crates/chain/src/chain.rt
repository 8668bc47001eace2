//! Chains, and how to make one.

ghost use Rattle.std.specs.Prelude.{◌≡◌, ◌/◌, min, length};
ghost use Rattle.chain.specs.Chains.{chain_need};
ghost use Rattle.store.specs.Packets.{empty};

use crate::cells::{CELL, Cells};
use crate::head::Head;
use store::{Kind, LentStore, Store};

/// The store of kind 2: packets of at most 1,024 bytes in cells of lent memory.
pub type Chain<'a> = LentStore<Cells<'a>, 2>;

/// A chain over any memory, links and table, with nothing in it. What does not make a whole cell with a link and a head is left alone.
pub fn chain_over<'a>(
    memory: &'a mut [u8],
    links: &'a mut [usize],
    heads: &'a mut [Head],
) -> Chain<'a>
    ensures kind { ⟦<<Chain<'a> as Store>::Kind as Kind>⟧.KIND ≡ 2 }
    ensures packets { (⟦<Chain<'a> as Store>⟧.meaning result).packets ≡ empty }
    ensures largest { (⟦<Chain<'a> as Store>⟧.meaning result).largest ≡ 1024 }
    ensures capacity { (⟦<Chain<'a> as Store>⟧.meaning result).capacity ≡ min (min (length heads.old) (length links.old)) (length memory.old / 32) }
    ensures need { (⟦<Chain<'a> as Store>⟧.meaning result).need ≡ chain_need }
{
    let count = heads.len().min(links.len()).min(memory.len() / CELL);
    LentStore::over(Cells::over(
        &mut memory[..CELL * count],
        &mut links[..count],
        &mut heads[..count],
    ))
}

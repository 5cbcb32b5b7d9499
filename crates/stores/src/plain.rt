ghost use Rattle.stores.specs.Parts.{past};

use crate::cell::{CellStore, WordCell};

// A store over lent memory with one word in each cell. Cells past the first 65,536 are unused.
pub type PlainStore<'a> = CellStore<'a, u32>;

// A cell of 32 bits holds one word.
#[tactic(auto, using(crate::proofs::Parts::past_set))]
impl WordCell for u32 {
    ghost words = { λ cells. cells };

    ghost rest = { past };

    fn room(cells: &[u32]) -> usize {
        cells.len()
    }

    fn word(cells: &[u32], address: usize) -> u32 {
        cells[address]
    }

    fn put(cells: &mut [u32], address: usize, word: u32) {
        cells[address] = word;
    }
}

ghost use Rattle.std.specs.Prelude.{◌≡◌, ℕ, ◌<◌, List, length, slice_index, slice_set};
ghost use Rattle.stores.specs.Homes.{lent};
ghost use Rattle.stores.specs.Words.{held, held_small};

use crate::word_store::{MOST_WORDS, WordStore};
use common::refusal::Refusal;

// A kind of cell that lent memory is made of: how words lie in a list of them.
pub trait WordCell: Drop {
    // The words, in the order of their addresses.
    ghost words: { List Self → List ℕ };

    // The cells past so many words.
    ghost rest: { ℕ → List Self → List ℕ };

    // How many words there are.
    fn room(cells: &[Self]) -> usize
        ensures { result ≡ length (words cells.now) };

    // The word at an address.
    fn word(cells: &[Self], address: usize) -> u32
        requires { address < length (words cells.now) }
        ensures { result ≡ slice_index (words cells.now) address };

    // Puts a word at an address.
    fn put(cells: &mut [Self], address: usize, word: u32)
        requires { address < length (words cells.old) }
        ensures words { words cells.new ≡ slice_set (words cells.old) address word }
        ensures rest { (n : ℕ) → address < n → rest n cells.new ≡ rest n cells.old };
}

// Lent cells are a store themselves. A struct that holds them so can tell their lender what they hold in the end.
#[tactic(auto, using(crate::proofs::Parts::in_cells))]
impl<'a, C: WordCell> WordStore for &'a mut [C] {
    ghost words = { λ s. held (C.words s.now) };

    ghost home = { λ s. lent s.ghost_name (C.rest 65536 s.now) };

    ghost small = { λ s. held_small (C.words s.now) };

    fn size(&self) -> u32 {
        C::room(self).min(MOST_WORDS) as u32
    }

    fn read(&self, address: u32) -> Result<u32, Refusal> {
        self.check(address)?;
        Ok(C::word(self, address as usize))
    }

    fn write(&mut self, address: u32, word: u32) -> Result<(), Refusal> {
        (*self).check(address)?;
        C::put(self, address as usize, word);
        Ok(())
    }
}

// A store over lent cells of one kind, which calls the functions of the slice. It stands beside the slice for its names
// and its `new`, which callers use.
#[derive(Drop)]
pub struct CellStore<'a, C> {
    cells: &'a mut [C],
}

impl<'a, C: WordCell> CellStore<'a, C> {
    // The store over these cells.
    pub fn new(cells: &'a mut [C]) -> Self
        ensures { result.cells ≡ cells.entry }
    {
        CellStore { cells }
    }
}

impl<'a, C: WordCell> WordStore for CellStore<'a, C> {
    ghost words = { λ s. held (C.words s.cells.now) };

    ghost home = { λ s. lent s.cells.ghost_name (C.rest 65536 s.cells.now) };

    ghost small = { λ s. held_small (C.words s.cells.now) };

    fn size(&self) -> u32 {
        self.cells.size()
    }

    fn read(&self, address: u32) -> Result<u32, Refusal> {
        self.cells.read(address)
    }

    fn write(&mut self, address: u32, word: u32) -> Result<(), Refusal> {
        self.cells.write(address, word)
    }
}

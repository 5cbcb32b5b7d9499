ghost use Rattle.std.specs.Prelude.{◌≡◌, ℕ, ◌≤◌, List, length, slice_set};
ghost use Rattle.stores.specs.Words.{word_at, written_at};
ghost use Rattle.stores.specs.Homes.{Home};

use common::refusal::Refusal;

// The most words that a store has.
pub const MOST_WORDS: usize = 65536;

// Memory of words, each an unsigned number of 32 bits. The number of words, the size, never changes.
pub trait WordStore {
    // The words, in the order of their addresses.
    ghost words: { Self → List ℕ };

    // The memory that the words lie in, and what of it is no word of the store.
    ghost home: { Self → Home };

    // How many words there are.
    fn size(&self) -> u32
        ensures { result ≡ length (words self.now) };

    // Refuses an address that is not below the size.
    fn check(&self, address: u32) -> Result<(), Refusal>
        ensures { result ≡ written_at (words self.now) address }
    {
        if address < self.size() {
            Ok(())
        } else {
            Err(Refusal::NoSuchPlace)
        }
    }

    // The word at an address below the size; any other address is refused.
    fn read(&self, address: u32) -> Result<u32, Refusal>
        ensures { result ≡ word_at (words self.now) address };

    // Puts a word at an address below the size; any other address is refused. No other word changes.
    fn write(&mut self, address: u32, word: u32) -> Result<(), Refusal>
        ensures answer { result ≡ written_at (words self.old) address }
        ensures after { words self.new ≡ slice_set (words self.old) address word }
        ensures lender { home self.new ≡ home self.old };

    // There are never more than 65,536 words.
    ghost small: { (s : Self) → length (words s) ≤ 65536 };
}

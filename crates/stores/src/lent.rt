ghost use Rattle.stores.specs.Homes.{behind};

use crate::word_store::WordStore;
use common::refusal::Refusal;

// A lent store is a store: the one that lies behind the reference.
impl<S: WordStore> WordStore for &mut S {
    ghost words = { λ s. S.words s.now };

    ghost home = { λ s. behind s.ghost_name (S.home s.now) };

    ghost small = { λ s. S.small s.now };

    fn size(&self) -> u32 {
        (**self).size()
    }

    fn read(&self, address: u32) -> Result<u32, Refusal> {
        (**self).read(address)
    }

    fn write(&mut self, address: u32, word: u32) -> Result<(), Refusal> {
        (**self).write(address, word)
    }
}

ghost use Rattle.std.specs.Prelude.{◌≡◌, ◌+◌, min, length};
ghost use Rattle.stores.specs.Homes.{within};
ghost use Rattle.stores.specs.Parts.{part, before, past, part_small};

use crate::word_store::WordStore;
use common::refusal::Refusal;

// A store that is a part of another: `length` words of it from `base` on, as far as it goes.
#[derive(Drop)]
pub struct Window<S> {
    below: S,
    base: u32,
    length: u32,
}

impl<S: WordStore> Window<S> {
    // The part of the store below that begins at `base` and has at most `length` words.
    pub fn new(below: S, base: u32, length: u32) -> Self
        ensures { result ≡ record { below = below; base = base; length = length } }
    {
        Window {
            below,
            base,
            length,
        }
    }

    // The store below, given back.
    pub fn into_below(self) -> S
        ensures { result ≡ self.below }
    {
        let Window {
            below,
            base: _,
            length: _,
        } = self;
        below
    }

    // How many words there are below from the base on.
    #[tactic(auto, using(crate::proofs::Parts::in_windows))]
    fn room(&self) -> u32
        ensures { length (part self.now.base self.now.length (S.words self.now.below)) ≡ min self.now.length result }
    {
        self.below.size().saturating_sub(self.base)
    }
}

#[tactic(auto, using(crate::proofs::Parts::in_windows))]
impl<S: WordStore> WordStore for Window<S> {
    ghost words = { λ s. part s.base s.length (S.words s.below) };

    ghost home = { λ s. within (S.home s.below) s.base s.length (before s.base (S.words s.below)) (past (s.base + s.length) (S.words s.below)) };

    ghost small = { λ s. part_small s.base s.length (S.words s.below) (S.small s.below) };

    fn size(&self) -> u32 {
        self.room().min(self.length)
    }

    fn read(&self, address: u32) -> Result<u32, Refusal> {
        self.check(address)?;
        self.below.read(self.base + address)
    }

    fn write(&mut self, address: u32, word: u32) -> Result<(), Refusal> {
        (*self).check(address)?;
        self.below.write(self.base + address, word)
    }
}

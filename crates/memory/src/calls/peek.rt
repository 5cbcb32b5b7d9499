ghost use Rattle.std.specs.Prelude.{◌≡◌};
ghost use Rattle.memory.specs.Views.{engine_view};
ghost use Rattle.rules.specs.Peek.{peek};

use crate::memory::Memory;
use common::refusal::Refusal;
use layout::lock_word::LockWord;

impl<S, P> Memory<S, P> {
    // The lock word of a stripe: its version and its owner.
    pub fn peek(&self, stripe: u32) -> Result<u64, Refusal>
        ensures { result ≡ peek (engine_view self.now.engine) stripe }
    {
        let at = self.engine.set_up.stripe(stripe)?;
        let stripe = self.engine.stripes[at];
        let word = LockWord {
            version: stripe.version,
            owner: stripe.owner_number(),
        };
        word.try_into()
    }
}

ghost use Rattle.std.specs.Prelude.{◌≡◌};
ghost use Rattle.memory.specs.Memories.{world};
ghost use Rattle.rules.specs.NewEngine.{new_world};

use crate::engine::Engine;
use crate::memory::Memory;
use contention::policy::Policy;
use layout::set_up::SetUp;
use stores::word_store::WordStore;

impl<S: WordStore, P: Policy> Memory<S, P> {
    // A memory over a store, with a policy, that nobody has called yet.
    pub fn new(set_up: SetUp, store: S, policy: P) -> Memory<S, P>
        ensures all_new { world S.words result ≡ new_world set_up (S.words store) }
        ensures store { result.words ≡ store }
        ensures policy { result.policy ≡ policy }
    {
        let engine = Engine::new(set_up);
        Memory {
            engine,
            words: store,
            policy,
        }
    }

    // The store and the policy, when the memory is not needed any more.
    pub fn into_parts(self) -> (S, P)
        ensures store { result.0 ≡ self.words }
        ensures policy { result.1 ≡ self.policy }
    {
        let Memory {
            engine,
            words,
            policy,
        } = self;
        drop(engine);
        (words, policy)
    }
}

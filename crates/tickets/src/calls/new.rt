ghost use Rattle.std.specs.Prelude.{◌≡◌};
ghost use Rattle.memory.specs.Memories.{world};
ghost use Rattle.rules.specs.NewEngine.{new_world};
ghost use Rattle.tickets.specs.Claims.{unclaimed};

use crate::tasks::Tasks;
use contention::policy::Policy;
use layout::set_up::SetUp;
use memory::memory::Memory;
use stores::word_store::WordStore;

impl<S: WordStore, P: Policy> Tasks<S, P> {
    // A memory over a store, with a policy, that nobody has called yet and whose tickets are all to be claimed.
    pub fn new(set_up: SetUp, store: S, policy: P) -> Tasks<S, P>
        ensures all_new { world S.words result.memory ≡ new_world set_up (S.words store) }
        ensures store { result.memory.words ≡ store }
        ensures policy { result.memory.policy ≡ policy }
        ensures claims { result.claims ≡ unclaimed }
    {
        Tasks {
            memory: Memory::new(set_up, store, policy),
            claims: [false; 8],
        }
    }

    // The store and the policy, when the memory is not needed any more.
    pub fn into_parts(self) -> (S, P)
        ensures store { result.0 ≡ self.memory.words }
        ensures policy { result.1 ≡ self.memory.policy }
    {
        let Tasks { memory, claims: _ } = self;
        memory.into_parts()
    }
}

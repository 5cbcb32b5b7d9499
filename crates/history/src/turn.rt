ghost use Rattle.std.specs.Prelude.{◌≡◌, Some};
ghost use Rattle.memory.specs.Memories.{Did, world};
ghost use Rattle.rules.specs.Calls.{performed};

use contention::policy::Policy;
use memory::memory::Memory;
use rules::answer::Answer;
use rules::call::Call;
use stores::word_store::WordStore;

// A call of a list, and its answer once it was made.
#[derive(Clone, Copy)]
pub struct Turn {
    pub call: Call,
    pub answer: Option<Answer>,
}

impl Turn {
    // Makes the call on a memory, and keeps its answer.
    pub(crate) fn make<S: WordStore, P: Policy>(&mut self, memory: &mut Memory<S, P>)
        ensures call { self.new.call ≡ self.old.call }
        ensures answer { self.new.answer ≡ Some (performed (P.table memory.old.policy) (world S.words memory.old) self.old.call).answer }
        ensures made { Did S.words S.home P.moved memory.old memory.new (performed (P.table memory.old.policy) (world S.words memory.old) self.old.call).answer (performed (P.table memory.old.policy) (world S.words memory.old) self.old.call) }
    {
        self.answer = Some(memory.perform(self.call));
    }
}

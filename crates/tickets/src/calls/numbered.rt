ghost use Rattle.std.specs.Prelude.{◌≡◌};
ghost use Rattle.memory.specs.Memories.{Did, world};
ghost use Rattle.memory.specs.Views.{engine_view};
ghost use Rattle.rules.specs.Calls.{performed};
ghost use Rattle.rules.specs.Peek.{peek};

use crate::tasks::Tasks;
use common::refusal::Refusal;
use contention::policy::Policy;
use rules::answer::Answer;
use rules::call::Call;
use stores::word_store::WordStore;

impl<S: WordStore, P: Policy> Tasks<S, P> {
    // Makes a numbered call beside the tickets, such as a roll; no claim changes.
    pub fn perform(&mut self, call: Call) -> Answer
        ensures did { Did S.words S.home P.moved self.old.memory self.new.memory result (performed (P.table self.old.memory.policy) (world S.words self.old.memory) call) }
        ensures claims { self.new.claims ≡ self.old.claims }
    {
        self.memory.perform(call)
    }

    // The lock word of a stripe: its version and its owner.
    pub fn peek(&self, stripe: u32) -> Result<u64, Refusal>
        ensures { result ≡ peek (engine_view self.now.memory.engine) stripe }
    {
        self.memory.peek(stripe)
    }
}

ghost use Rattle.memory.specs.Memories.{Did, world};
ghost use Rattle.rules.specs.Calls.{performed};

use crate::memory::Memory;
use contention::policy::Policy;
use rules::answer::Answer;
use rules::call::Call;
use stores::word_store::WordStore;

impl<S: WordStore, P: Policy> Memory<S, P> {
    // Makes a call that is given as a value, and gives its answer as one. The call is an enum and no closure, so that
    // a program can keep it, compare it and write it down.
    pub fn perform(&mut self, call: Call) -> Answer
        ensures { Did S.words S.home P.moved self.old self.new result (performed (P.table self.old.policy) (world S.words self.old) call) }
    {
        match call {
            Call::Begin { thread } => Answer::from(self.begin(thread)),
            Call::Load { thread, address } => Answer::from(self.load(thread, address)),
            Call::Store {
                thread,
                address,
                word,
            } => Answer::from(self.store(thread, address, word)),
            Call::Seal { thread } => Answer::from(self.seal(thread)),
            Call::Drain { thread } => Answer::from(self.drain(thread)),
            Call::Back { thread } => Answer::from(self.back(thread)),
            Call::Roll => Answer::from(self.roll()),
        }
    }
}

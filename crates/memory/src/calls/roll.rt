ghost use Rattle.memory.specs.Memories.{Did, world};
ghost use Rattle.rules.specs.Answers.{begin_answer};
ghost use Rattle.rules.specs.Roll.{roll};

use crate::memory::Memory;
use common::refusal::Refusal;
use contention::policy::Policy;
use stores::word_store::WordStore;

impl<S: WordStore, P: Policy> Memory<S, P> {
    // Starts the clock and all versions anew, once the clock is spent and no transaction is under way.
    pub fn roll(&mut self) -> Result<(), Refusal>
        ensures { Did S.words S.home P.moved self.old self.new (begin_answer result) (roll (world S.words self.old)) }
    {
        if !self.engine.mark {
            return Err(Refusal::RollNotDue);
        }
        if !self.engine.is_all_idle() {
            return Err(Refusal::ThreadsActive);
        }
        self.engine.roll();
        Ok(())
    }
}

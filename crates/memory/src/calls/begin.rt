ghost use Rattle.memory.specs.Memories.{Did, world};
ghost use Rattle.rules.specs.Answers.{begin_answer};
ghost use Rattle.rules.specs.Begin.{begin};

use crate::memory::Memory;
use common::refusal::Refusal;
use contention::policy::Policy;
use rules::kind::Kind;
use stores::word_store::WordStore;

impl<S: WordStore, P: Policy> Memory<S, P> {
    // Begins a transaction of an idle thread, at the present moment.
    pub fn begin(&mut self, thread: u32) -> Result<(), Refusal>
        ensures { Did S.words S.home P.moved self.old self.new (begin_answer result) (begin (world S.words self.old) thread) }
    {
        let id = self.engine.admit(Kind::Begin, thread)?;
        if self.engine.mark {
            return Err(Refusal::RollPending);
        }
        let end = self.engine.clock;
        self.engine.threads.edit(id, |cell| cell.start(end));
        Ok(())
    }
}

ghost use Rattle.memory.specs.Memories.{Did, world};
ghost use Rattle.rules.specs.Answers.{back_answer};
ghost use Rattle.rules.specs.Back.{back};

use crate::memory::Memory;
use common::refusal::Refusal;
use contention::policy::Policy;
use rules::ending::Ending;
use rules::kind::Kind;
use rules::phase::Phase;
use stores::word_store::WordStore;

impl<S: WordStore, P: Policy> Memory<S, P> {
    // Ends the running or lost transaction of the thread, which leaves nothing of it; answers how it ended.
    pub fn back(&mut self, thread: u32) -> Result<Ending, Refusal>
        ensures { Did S.words S.home P.moved self.old self.new (back_answer result) (back (world S.words self.old) thread) }
    {
        let id = self.engine.admit(Kind::Back, thread)?;
        let ending = match self.engine.threads[id].phase {
            Phase::Lost(loss) => Ending::Lost(loss),
            _ => Ending::GivenUp,
        };
        self.engine.release(id, None);
        Ok(ending)
    }
}

ghost use Rattle.memory.specs.Memories.{Did, world};
ghost use Rattle.rules.specs.Answers.{drain_answer};
ghost use Rattle.rules.specs.Drain.{drain};

use crate::memory::Memory;
use common::refusal::Refusal;
use contention::policy::Policy;
use rules::kind::Kind;
use rules::phase::Phase;
use stores::word_store::WordStore;

impl<S: WordStore, P: Policy> Memory<S, P> {
    // Writes the next word of the sealed transaction of the thread to the store; answers how many are left.
    pub fn drain(&mut self, thread: u32) -> Result<u32, Refusal>
        ensures { Did S.words S.home P.moved self.old self.new (drain_answer result) (drain (world S.words self.old) thread) }
    {
        let id = self.engine.admit(Kind::Drain, thread)?;
        let cell = &self.engine.threads[id];
        let Phase::Sealed { ticket, drained } = cell.phase else {
            return Err(Refusal::WrongState);
        };
        let Some(entry) = cell.writes.get(drained) else {
            self.engine.release(id, Some(ticket));
            return Ok(0);
        };
        let left = cell.writes.len() - (drained + 1);
        let _ = self.words.write(entry.address, entry.word);
        if left == 0 {
            self.engine.release(id, Some(ticket));
        } else {
            let drained = drained + 1;
            self.engine.enter(id, Phase::Sealed { ticket, drained });
        }
        Ok(left)
    }
}

ghost use Rattle.memory.specs.Memories.{Did, world};
ghost use Rattle.std.specs.Prelude.{false};
ghost use Rattle.rules.specs.Answers.{seal_answer};
ghost use Rattle.rules.specs.Seal.{seal, seal_updates};

use crate::memory::Memory;
use common::thread_id::ThreadId;
use contention::policy::Policy;
use rules::ending::Sealed;
use rules::kind::Kind;
use rules::phase::Phase;
use rules::stop::Stop;
use stores::word_store::WordStore;

impl<S: WordStore, P: Policy> Memory<S, P> {
    // Seals the running transaction of the thread: a reader is done, an updater has its ticket and is to be drained.
    pub fn seal(&mut self, thread: u32) -> Result<Sealed, Stop>
        ensures { Did S.words S.home P.moved self.old self.new (seal_answer result) (seal (world S.words self.old) thread) }
    {
        let id = self.engine.admit(Kind::Seal, thread)?;
        if !self.engine.threads[id].writes.is_empty() {
            return self.seal_updater(id);
        }
        let snapshot = self.engine.threads[id].snapshot;
        self.engine.enter(id, Phase::Idle);
        self.policy.sealed(id);
        Ok(Sealed::Reader { snapshot })
    }

    // Seals a transaction that stored something.
    fn seal_updater(&mut self, thread: ThreadId) -> Result<Sealed, Stop>
        ensures { Did S.words S.home P.moved self.old self.new (seal_answer result) (seal_updates (world S.words self.old) thread.number false) }
    {
        if self.engine.clock >= self.engine.set_up.limit() {
            return Err(Stop::Lost(self.engine.spend(thread)));
        }
        self.engine.check_reads(thread)?;
        let ticket = self.engine.stamp(thread);
        self.policy.sealed(thread);
        Ok(Sealed::Updater { ticket })
    }
}

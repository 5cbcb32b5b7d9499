ghost use Rattle.std.specs.Prelude.{◌<◌, length, None};
ghost use Rattle.memory.specs.Memories.{Did, world};
ghost use Rattle.rules.specs.Answers.{load_answer};
ghost use Rattle.rules.specs.Load.{load, load_logged};

use crate::memory::Memory;
use common::refusal::Refusal;
use common::thread_id::ThreadId;
use contention::policy::Policy;
use layout::entries::ReadEntry;
use rules::kind::Kind;
use rules::stop::Stop;
use stores::word_store::WordStore;

impl<S: WordStore, P: Policy> Memory<S, P> {
    // The word at an address, as the running transaction of the thread sees it.
    pub fn load(&mut self, thread: u32, address: u32) -> Result<u32, Stop>
        ensures { Did S.words S.home P.moved self.old self.new (load_answer result) (load (P.table self.old.policy) (world S.words self.old) thread address) }
    {
        let id = self.engine.admit(Kind::Load, thread)?;
        self.words.check(address)?;
        if let Some(entry) = self.engine.threads[id].writes.find(address) {
            self.policy.loaded(id);
            return Ok(entry.word);
        }
        self.load_stripe(id, address)
    }

    // The word of the store, through the stripe of its address.
    fn load_stripe(&mut self, thread: ThreadId, address: u32) -> Result<u32, Stop>
        requires { address < length (S.words self.old.words) }
        ensures { Did S.words S.home P.moved self.old self.new (load_answer result) (load_logged (P.table self.old.policy) (world S.words self.old) thread.number address None) }
    {
        let at = self.engine.set_up.stripe_of(address);
        let known = self.engine.threads[thread].has_read(at);
        if !known && self.engine.threads[thread].reads_full() {
            return Err(Stop::Refused(Refusal::LogFull));
        }
        let stripe = self.engine.stripes[at];
        if self.engine.is_busy(thread, stripe.owner) {
            return Err(Stop::Refused(Refusal::StripeBusy));
        }
        self.engine.refresh(thread, stripe.version)?;
        self.contend(thread, stripe.owner)?;
        if !known {
            let entry = ReadEntry {
                stripe: at,
                version: stripe.version,
            };
            self.engine
                .threads
                .edit(thread, |cell| cell.note_read(entry));
        }
        self.policy.loaded(thread);
        Ok(self.words.read(address).unwrap())
    }
}

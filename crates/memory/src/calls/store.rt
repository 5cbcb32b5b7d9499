ghost use Rattle.memory.specs.Memories.{Did, world};
ghost use Rattle.std.specs.Prelude.{false};
ghost use Rattle.rules.specs.Answers.{store_answer};
ghost use Rattle.rules.specs.Store.{store, store_logged};

use crate::memory::Memory;
use common::refusal::Refusal;
use common::thread_id::ThreadId;
use contention::policy::Policy;
use layout::entries::WriteEntry;
use rules::kind::Kind;
use rules::stop::Stop;
use stores::word_store::WordStore;

impl<S: WordStore, P: Policy> Memory<S, P> {
    // Has the running transaction of the thread write a word at an address.
    pub fn store(&mut self, thread: u32, address: u32, word: u32) -> Result<(), Stop>
        ensures { Did S.words S.home P.moved self.old self.new (store_answer result) (store (P.table self.old.policy) (world S.words self.old) thread address word) }
    {
        let id = self.engine.admit(Kind::Store, thread)?;
        self.words.check(address)?;
        if self.engine.threads[id].writes.find(address).is_some() {
            self.engine
                .threads
                .edit(id, |cell| cell.rewrite(WriteEntry { address, word }));
            return Ok(());
        }
        self.store_stripe(id, address, word)
    }

    // A store to an address that is not logged yet: its stripe is taken, unless the thread owns it.
    fn store_stripe(&mut self, thread: ThreadId, address: u32, word: u32) -> Result<(), Stop>
        ensures { Did S.words S.home P.moved self.old self.new (store_answer result) (store_logged (P.table self.old.policy) (world S.words self.old) thread.number address word false) }
    {
        if self.engine.threads[thread].writes.is_full() {
            return Err(Stop::Refused(Refusal::LogFull));
        }
        let at = self.engine.set_up.stripe_of(address);
        let stripe = self.engine.stripes[at];
        if self.engine.is_busy(thread, stripe.owner) {
            return Err(Stop::Refused(Refusal::StripeBusy));
        }
        self.contend(thread, stripe.owner)?;
        self.engine.threads.edit(thread, |cell| cell.note_write(WriteEntry { address, word }));
        if !stripe.is_owned_by(thread) {
            self.engine.own(thread, at, stripe.version);
            self.policy.took(thread);
        }
        Ok(())
    }
}

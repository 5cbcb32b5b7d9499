ghost use Rattle.std.specs.Prelude.{◌≡◌};
ghost use Rattle.memory.specs.Memories.{Did, world};
ghost use Rattle.rules.specs.Answers.{store_answer};
ghost use Rattle.rules.specs.Store.{store};

use crate::tasks::Tasks;
use crate::ticket::OpenTicket;
use contention::policy::Policy;
use rules::stop::Stop;
use stores::word_store::WordStore;

impl<S: WordStore, P: Policy> Tasks<S, P> {
    // Has the ticket's transaction write a word at an address. The ticket stays open, also where the store is lost.
    pub fn store(&mut self, ticket: &OpenTicket, address: u32, word: u32) -> Result<(), Stop>
        ensures did { Did S.words S.home P.moved self.old.memory self.new.memory (store_answer result) (store (P.table self.old.memory.policy) (world S.words self.old.memory) ticket.now.thread.number address word) }
        ensures claims { self.new.claims ≡ self.old.claims }
    {
        self.memory.store(ticket.thread().number(), address, word)
    }
}

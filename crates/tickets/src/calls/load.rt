ghost use Rattle.std.specs.Prelude.{◌≡◌};
ghost use Rattle.memory.specs.Memories.{Did, world};
ghost use Rattle.rules.specs.Answers.{load_answer};
ghost use Rattle.rules.specs.Load.{load};

use crate::tasks::Tasks;
use crate::ticket::OpenTicket;
use contention::policy::Policy;
use rules::stop::Stop;
use stores::word_store::WordStore;

impl<S: WordStore, P: Policy> Tasks<S, P> {
    // The word at an address, as the ticket's transaction sees it. The ticket stays open, also where the load is lost.
    pub fn load(&mut self, ticket: &OpenTicket, address: u32) -> Result<u32, Stop>
        ensures did { Did S.words S.home P.moved self.old.memory self.new.memory (load_answer result) (load (P.table self.old.memory.policy) (world S.words self.old.memory) ticket.now.thread.number address) }
        ensures claims { self.new.claims ≡ self.old.claims }
    {
        self.memory.load(ticket.thread().number(), address)
    }
}

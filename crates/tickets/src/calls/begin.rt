ghost use Rattle.std.specs.Prelude.{◌≡◌};
ghost use Rattle.memory.specs.Memories.{Did, world};
ghost use Rattle.rules.specs.Answers.{begin_answer};
ghost use Rattle.rules.specs.Begin.{begin};
ghost use Rattle.tickets.specs.Given.{begin_given, begin_left};
ghost use Rattle.tickets.specs.Hands.{begin_hand};

use crate::outcomes::Kept;
use crate::tasks::Tasks;
use crate::ticket::{IdleTicket, Open, OpenTicket};
use common::refusal::Refusal;
use contention::policy::Policy;
use stores::word_store::WordStore;

impl<S: WordStore, P: Policy> Tasks<S, P> {
    // Begins a transaction of the ticket's thread, at the present moment. A refused begin leaves the ticket idle.
    pub fn begin(&mut self, ticket: IdleTicket) -> Result<OpenTicket, Kept<IdleTicket, Refusal>>
        ensures did { Did S.words S.home P.moved self.old.memory self.new.memory (begin_answer (begin_given result)) (begin (world S.words self.old.memory) ticket.thread.number) }
        ensures hand { begin_left result ≡ begin_hand ticket.thread.number (begin_given result) }
        ensures claims { self.new.claims ≡ self.old.claims }
    {
        // A `match`, since both ways take the ticket: in a chain of `map` and `map_err` only one could.
        match self.memory.begin(ticket.thread().number()) {
            Ok(()) => Ok(ticket.into_state(Open)),
            Err(reason) => Err(Kept { ticket, reason }),
        }
    }
}

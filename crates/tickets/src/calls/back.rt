ghost use Rattle.std.specs.Prelude.{◌≡◌};
ghost use Rattle.memory.specs.Memories.{Did, world};
ghost use Rattle.rules.specs.Answers.{back_answer};
ghost use Rattle.rules.specs.Back.{back};
ghost use Rattle.tickets.specs.Given.{back_given, back_left};
ghost use Rattle.tickets.specs.Hands.{back_hand};

use crate::outcomes::{Ended, Kept};
use crate::tasks::Tasks;
use crate::ticket::{Idle, OpenTicket};
use common::refusal::Refusal;
use contention::policy::Policy;
use stores::word_store::WordStore;

impl<S: WordStore, P: Policy> Tasks<S, P> {
    // Ends the ticket's running or lost transaction, which leaves nothing of it. A refused back leaves the ticket open.
    pub fn back(&mut self, ticket: OpenTicket) -> Result<Ended, Kept<OpenTicket, Refusal>>
        ensures did { Did S.words S.home P.moved self.old.memory self.new.memory (back_answer (back_given result)) (back (world S.words self.old.memory) ticket.thread.number) }
        ensures hand { back_left result ≡ back_hand ticket.thread.number (back_given result) }
        ensures claims { self.new.claims ≡ self.old.claims }
    {
        // A `match`, since both ways take the ticket: in a chain of `map` and `map_err` only one could.
        match self.memory.back(ticket.thread().number()) {
            Ok(ending) => Ok(Ended {
                ticket: ticket.into_state(Idle),
                ending,
            }),
            Err(reason) => Err(Kept { ticket, reason }),
        }
    }
}

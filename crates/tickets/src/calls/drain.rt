ghost use Rattle.std.specs.Prelude.{◌≡◌};
ghost use Rattle.memory.specs.Memories.{Did, world};
ghost use Rattle.rules.specs.Answers.{drain_answer};
ghost use Rattle.rules.specs.Drain.{drain};
ghost use Rattle.tickets.specs.Given.{drain_given, drain_left, drain_numbers};
ghost use Rattle.tickets.specs.Hands.{drain_hand};

use crate::outcomes::{Drained, Kept};
use crate::tasks::Tasks;
use crate::ticket::{IdleTicket, SealedTicket};
use common::refusal::Refusal;
use contention::policy::Policy;
use stores::word_store::WordStore;

impl<S: WordStore, P: Policy> Tasks<S, P> {
    // Writes the next word of the ticket's transaction to the store. The ticket is idle once no word is left, and
    // where the drain is refused: its thread is then not sealed in this memory.
    pub fn drain(&mut self, ticket: SealedTicket) -> Result<Drained, Kept<IdleTicket, Refusal>>
        ensures did { Did S.words S.home P.moved self.old.memory self.new.memory (drain_answer (drain_given result)) (drain (world S.words self.old.memory) ticket.thread.number) }
        ensures hand { drain_left result ≡ drain_hand ticket.thread.number (drain_given result) }
        ensures numbered { drain_numbers ticket.state.number result }
        ensures claims { self.new.claims ≡ self.old.claims }
    {
        // A `match`, since both ways take the ticket: in a chain of `map` and `map_err` only one could.
        match self.memory.drain(ticket.thread().number()) {
            Ok(0) => Ok(Drained::All(ticket.into_idle())),
            Ok(left) => Ok(Drained::More { ticket, left }),
            Err(reason) => Err(Kept {
                ticket: ticket.into_idle(),
                reason,
            }),
        }
    }
}

ghost use Rattle.std.specs.Prelude.{◌≡◌};
ghost use Rattle.memory.specs.Memories.{Did, world};
ghost use Rattle.rules.specs.Answers.{seal_answer};
ghost use Rattle.rules.specs.Seal.{seal};
ghost use Rattle.tickets.specs.Given.{seal_given, seal_left, seal_numbers};
ghost use Rattle.tickets.specs.Hands.{seal_hand};

use crate::outcomes::{Kept, Sealing};
use crate::tasks::Tasks;
use crate::ticket::{Idle, OpenTicket, Sealed};
use contention::policy::Policy;
use rules::ending;
use rules::stop::Stop;
use stores::word_store::WordStore;

impl<S: WordStore, P: Policy> Tasks<S, P> {
    // Seals the ticket's transaction: a reader is done, an updater is to be drained.
    // A seal that is refused or lost leaves the ticket open.
    pub fn seal(&mut self, ticket: OpenTicket) -> Result<Sealing, Kept<OpenTicket, Stop>>
        ensures did { Did S.words S.home P.moved self.old.memory self.new.memory (seal_answer (seal_given result)) (seal (world S.words self.old.memory) ticket.thread.number) }
        ensures hand { seal_left result ≡ seal_hand ticket.thread.number (seal_given result) }
        ensures numbered { seal_numbers result }
        ensures claims { self.new.claims ≡ self.old.claims }
    {
        // A `match`, since both ways take the ticket: in a chain of `map` and `map_err` only one could.
        match self.memory.seal(ticket.thread().number()) {
            Ok(ending::Sealed::Reader { snapshot }) => Ok(Sealing::Reader {
                ticket: ticket.into_state(Idle),
                snapshot,
            }),
            Ok(ending::Sealed::Updater { ticket: number }) => Ok(Sealing::Updater {
                ticket: ticket.into_state(Sealed { number }),
                number,
            }),
            Err(reason) => Err(Kept { ticket, reason }),
        }
    }
}

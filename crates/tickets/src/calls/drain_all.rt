ghost use Rattle.std.specs.Prelude.{◌≡◌};
ghost use Rattle.memory.specs.Memories.{Did, world};
ghost use Rattle.rules.specs.Answers.{drain_answer};
ghost use Rattle.tickets.specs.Drains.{drain_all, none_left};
ghost use Rattle.tickets.specs.Given.{finish_given, finish_left};
ghost use Rattle.tickets.specs.Hands.{idle};

use crate::outcomes::Kept;
use crate::tasks::Tasks;
use crate::ticket::{IdleTicket, SealedTicket};
use common::refusal::Refusal;
use contention::policy::Policy;
use memory::memory::Memory;
use stores::word_store::WordStore;

impl<S: WordStore, P: Policy> Tasks<S, P> {
    // Drains the ticket's transaction to its end, by as many drains as words are left. The ticket is idle after it.
    pub fn drain_all(
        &mut self,
        ticket: SealedTicket,
    ) -> Result<IdleTicket, Kept<IdleTicket, Refusal>>
        ensures did { Did S.words S.home P.moved self.old.memory self.new.memory (drain_answer (finish_given result)) (drain_all (world S.words self.old.memory) ticket.thread.number) }
        ensures hand { finish_left result ≡ idle ticket.thread.number }
        ensures claims { self.new.claims ≡ self.old.claims }
    {
        let drained = drain_words(&mut self.memory, ticket.thread().number());
        let ticket = ticket.into_idle();
        // A `match`, since both ways take the ticket: in a chain of `map` and `map_err` only one could.
        match drained {
            Ok(()) => Ok(ticket),
            Err(reason) => Err(Kept { ticket, reason }),
        }
    }
}

// Drains a thread until no word is left, or a drain is refused.
fn drain_words<S: WordStore, P: Policy>(
    memory: &mut Memory<S, P>,
    thread: u32,
) -> Result<(), Refusal>
    ensures { Did S.words S.home P.moved memory.old memory.new (drain_answer (none_left result)) (drain_all (world S.words memory.old) thread) }
{
    while memory.drain(thread)? > 0 {}
    Ok(())
}

ghost use Rattle.std.specs.Prelude.{◌≡◌};
ghost use Rattle.memory.specs.Views.{engine_view};
ghost use Rattle.tickets.specs.Claims.{claim, after_claim};
ghost use Rattle.tickets.specs.Given.{claim_given};

use crate::tasks::Tasks;
use crate::ticket::IdleTicket;
use common::refusal::Refusal;

impl<S, P> Tasks<S, P> {
    // Gives the ticket of a thread, whatever the thread is doing, unless it is given out already.
    pub fn claim(&mut self, thread: u32) -> Result<IdleTicket, Refusal>
        ensures answer { claim_given result ≡ claim (engine_view self.old.memory.engine).set_up self.old.claims thread }
        ensures claims { self.new.claims ≡ after_claim self.old.claims (claim_given result) }
        ensures memory { self.new.memory ≡ self.old.memory }
    {
        let id = self.memory.set_up().thread(thread)?;
        if self.claims[id.index()] {
            return Err(Refusal::AlreadyClaimed);
        }
        self.claims[id.index()] = true;
        Ok(IdleTicket::new(id))
    }
}

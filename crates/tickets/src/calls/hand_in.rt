ghost use Rattle.std.specs.Prelude.{◌≡◌};
ghost use Rattle.tickets.specs.Claims.{handed_in};

use crate::tasks::Tasks;
use crate::ticket::IdleTicket;

impl<S, P> Tasks<S, P> {
    // Takes the ticket of a thread back, which may then be claimed again. A thread that is not claimed stays so.
    pub fn hand_in(&mut self, ticket: IdleTicket)
        ensures claims { self.new.claims ≡ handed_in self.old.claims ticket.thread.number }
        ensures memory { self.new.memory ≡ self.old.memory }
    {
        self.claims[ticket.thread().index()] = false;
    }
}

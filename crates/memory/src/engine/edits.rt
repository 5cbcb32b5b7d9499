ghost use Rattle.std.specs.Prelude.{◌≡◌, ◌+◌, ◌<◌};
ghost use Rattle.common.specs.declared.loss.Loss.TheVariants.{ClockSpent};
ghost use Rattle.memory.specs.Views.{engine_view};
ghost use Rattle.rules.specs.Drain.{release};
ghost use Rattle.rules.specs.NewEngine.{new_engine};
ghost use Rattle.rules.specs.Seal.{stamp};
ghost use Rattle.rules.specs.States.{with_stripe, marked, lose, enter};

use crate::engine::Engine;
use crate::stripes::{Stripe, Stripes};
use crate::threads::Threads;
use common::loss::Loss;
use common::thread_id::ThreadId;
use layout::set_up::SetUp;
use layout::stripe_id::StripeId;
use rules::phase::Phase;

impl Engine {
    // An engine that nobody has called yet.
    pub(crate) fn new(set_up: SetUp) -> Engine
        ensures { engine_view result ≡ new_engine set_up }
    {
        Engine {
            set_up,
            clock: 0,
            mark: false,
            stripes: Stripes::new(),
            threads: Threads::new(set_up.stripe_of(0)),
        }
    }

    // Loses the thread's transaction, and hands on why.
    pub(crate) fn lose(&mut self, thread: ThreadId, loss: Loss) -> Loss
        ensures why { result ≡ loss }
        ensures after { engine_view self.new ≡ lose (engine_view self.old) thread.number loss }
    {
        self.enter(thread, Phase::Lost(loss));
        loss
    }

    // Loses the thread's transaction to the spent clock, and asks for a roll.
    pub(crate) fn spend(&mut self, thread: ThreadId) -> Loss
        ensures why { result ≡ ClockSpent }
        ensures after { engine_view self.new ≡ lose (marked (engine_view self.old)) thread.number ClockSpent }
    {
        self.mark = true;
        self.lose(thread, Loss::ClockSpent)
    }

    // Makes the thread the owner of a stripe of this version.
    pub(crate) fn own(&mut self, thread: ThreadId, stripe: StripeId, version: u32)
        ensures { engine_view self.new ≡ with_stripe (engine_view self.old) stripe.number (record { version = version; owner = thread.number }) }
    {
        let owner = Some(thread);
        self.stripes.set(stripe, Stripe { version, owner });
    }

    // Seals the thread's transaction with the next tick of the clock as its ticket.
    pub(crate) fn stamp(&mut self, thread: ThreadId) -> u32
        requires { self.old.clock < self.old.set_up.limit }
        ensures ticket { result ≡ self.old.clock + 1 }
        ensures after { engine_view self.new ≡ stamp (engine_view self.old) thread.number }
    {
        let ticket = self.clock + 1;
        self.clock = ticket;
        self.enter(thread, Phase::Sealed { ticket, drained: 0 });
        ticket
    }

    // Moves the thread on to a phase.
    pub(crate) fn enter(&mut self, thread: ThreadId, phase: Phase)
        ensures { engine_view self.new ≡ enter (engine_view self.old) thread.number phase }
    {
        self.threads.edit(thread, |cell| cell.phase = phase);
    }

    // Releases the thread's stripes, at a new version if there is one, and makes it idle.
    pub(crate) fn release(&mut self, thread: ThreadId, version: Option<u32>)
        ensures { engine_view self.new ≡ release (engine_view self.old) thread.number version }
    {
        self.stripes.release(thread, version);
        self.enter(thread, Phase::Idle);
    }
}

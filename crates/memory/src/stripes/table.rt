ghost use Rattle.std.specs.Prelude.{◌≡◌, ◌==◌};
ghost use Rattle.memory.specs.Views.{stripe_table, stripe_view, owner_number};
ghost use Rattle.rules.specs.Drain.{freed};
ghost use Rattle.rules.specs.Maps.{at, put, each, everywhere};
ghost use Rattle.rules.specs.Roll.{rolled_stripe};
ghost use Rattle.rules.specs.NewEngine.{new_stripe};

use super::{Stripe, Stripes};
use common::thread_id::ThreadId;
use layout::stripe_id::StripeId;
use std::ops::Index;

impl Stripe {
    // The number of its owner, 0 for none, as a lock word has it.
    pub(crate) fn owner_number(self) -> u32
        ensures { result ≡ owner_number self.owner }
    {
        self.owner.map_or(0, ThreadId::number)
    }

    // Whether this thread owns it.
    pub(crate) fn is_owned_by(self, thread: ThreadId) -> bool
        ensures { result ≡ (owner_number self.owner == thread.number) }
    {
        self.owner == Some(thread)
    }

    // Has no owner any more if this thread owns it; then a new version counts too.
    fn release(&mut self, thread: ThreadId, version: Option<u32>)
        ensures { stripe_view self.new ≡ freed thread.number version (stripe_view self.old) }
    {
        if self.is_owned_by(thread) {
            self.version = version.unwrap_or(self.version);
            self.owner = None;
        }
    }

    // Has version 0, and the owner that it had.
    fn roll(&mut self)
        ensures { stripe_view self.new ≡ rolled_stripe (stripe_view self.old) }
    {
        self.version = 0;
    }
}

// The stripe of a number.
impl Index<StripeId> for Stripes {
    type Output = Stripe;

    ghost index_gives = { λ stripes id stripe. stripe_view stripe ≡ at (stripe_table stripes.all) id.number };

    #[tactic(auto, using(crate::proofs::Tables::at_stripes))]
    fn index(&self, id: StripeId) -> &Stripe {
        &self.all[id.index()]
    }
}

impl Stripes {
    // All stripes at version 0, without owners.
    pub(crate) fn new() -> Stripes
        ensures { stripe_table result.all ≡ everywhere new_stripe }
    {
        Stripes {
            all: [Stripe {
                version: 0,
                owner: None,
            }; 64],
        }
    }

    // Puts a stripe in the place of the one of this number.
    #[tactic(auto, using(crate::proofs::Tables::put_stripes))]
    pub(crate) fn set(&mut self, stripe: StripeId, to: Stripe)
        ensures { stripe_table self.new.all ≡ put (stripe_table self.old.all) stripe.number (stripe_view to) }
    {
        self.all[stripe.index()] = to;
    }

    // Releases each stripe of this thread. This walk and the next have a line each of their own; one that took a closure
    // would have to say of every stripe what the closure left there, in more words than both.
    #[tactic(auto, using(crate::proofs::Sweeps::swept_all, crate::proofs::Tables::freed_none))]
    pub(crate) fn release(&mut self, thread: ThreadId, version: Option<u32>)
        ensures { stripe_table self.new.all ≡ each (freed thread.number version) (stripe_table self.old.all) }
    {
        for stripe in &mut self.all {
            stripe.release(thread, version);
        }
    }

    // Sets all versions to 0.
    #[tactic(auto, using(crate::proofs::Sweeps::swept_all))]
    pub(crate) fn roll(&mut self)
        ensures { stripe_table self.new.all ≡ each rolled_stripe (stripe_table self.old.all) }
    {
        for stripe in &mut self.all {
            stripe.roll();
        }
    }
}

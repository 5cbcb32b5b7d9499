ghost use Rattle.std.specs.Prelude.{◌≡◌, map, ◌==◌};
ghost use Rattle.common.specs.Threads.{numbered};
ghost use Rattle.memory.specs.Views.{engine_view, owner_number, read_mark, stripe_numbered};
ghost use Rattle.rules.specs.Conflicts.{busy_by, rival_of, is_valid, first_invalid, recheck, refresh_to};
ghost use Rattle.rules.specs.Outcomes.{Stepped};
ghost use Rattle.rules.specs.Seal.{seal_check};
ghost use Rattle.rules.specs.States.{thread_of};

use crate::engine::Engine;
use common::loss::Loss;
use common::thread_id::ThreadId;
use layout::entries::ReadEntry;
use layout::stripe_id::StripeId;
use rules::phase::Phase;

impl Engine {
    // Whether this owner of a stripe is another thread that is sealed. Here and below the caller and the owner come apart, as
    // the rules take them: one is the caller's, the other lies in a stripe.
    pub(crate) fn is_busy(&self, thread: ThreadId, owner: Option<ThreadId>) -> bool
        ensures { result ≡ busy_by (engine_view self.now) thread.number (owner_number owner) }
    {
        owner.is_some_and(|other| {
            other != thread && matches!(self.threads[other].phase, Phase::Sealed { .. })
        })
    }

    // This owner of a stripe, if it is another thread that is running.
    pub(crate) fn rival(&self, thread: ThreadId, owner: Option<ThreadId>) -> Option<ThreadId>
        ensures { numbered result ≡ rival_of (engine_view self.now) thread.number (owner_number owner) }
    {
        owner.filter(|other| { *other != thread && self.threads[*other].phase == Phase::Running })
    }

    // Whether a stripe is still as this entry of the thread's read log has it.
    fn is_valid(&self, thread: ThreadId, entry: ReadEntry) -> bool
        ensures { result ≡ is_valid (engine_view self.now) thread.number (read_mark entry) }
    {
        let stripe = self.stripes[entry.stripe];
        stripe.version == entry.version && !self.is_busy(thread, stripe.owner)
    }

    // The stripe of the first of these entries that is not valid.
    fn first_invalid(&self, thread: ThreadId, entries: &[ReadEntry]) -> Option<StripeId>
        ensures { stripe_numbered result ≡ first_invalid (engine_view self.now) thread.number (map read_mark entries.now) }
    {
        entries
            .iter()
            .find(|entry| !self.is_valid(thread, **entry))
            .map(|entry| entry.stripe)
    }

    // Checks the thread's read log: an invalid entry loses the transaction, else its snapshot end becomes the clock.
    pub(crate) fn recheck(&mut self, thread: ThreadId) -> Result<(), Loss>
        ensures { Stepped (recheck (engine_view self.old) thread.number) result (engine_view self.new) }
    {
        let entries = self.threads[thread].reads.entries();
        if let Some(stripe) = self.first_invalid(thread, entries) {
            return Err(self.lose(
                thread,
                Loss::Invalid {
                    stripe: stripe.number(),
                },
            ));
        }
        let end = self.clock;
        self.threads.edit(thread, |cell| cell.snapshot = end);
        Ok(())
    }

    // Checks the thread's read log before a seal, unless nothing was sealed since its snapshot end.
    pub(crate) fn check_reads(&mut self, thread: ThreadId) -> Result<(), Loss>
        ensures { Stepped (seal_check (engine_view self.old) thread.number (self.old.clock == (thread_of (engine_view self.old) thread.number).snapshot)) result (engine_view self.new) }
    {
        if self.clock == self.threads[thread].snapshot {
            Ok(())
        } else {
            self.recheck(thread)
        }
    }

    // Checks the thread's read log if a stripe that it loads from is newer than its snapshot end.
    pub(crate) fn refresh(&mut self, thread: ThreadId, version: u32) -> Result<(), Loss>
        ensures { Stepped (refresh_to (engine_view self.old) thread.number version) result (engine_view self.new) }
    {
        if self.threads[thread].snapshot < version {
            self.recheck(thread)
        } else {
            Ok(())
        }
    }
}

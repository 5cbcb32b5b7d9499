ghost use Rattle.std.specs.Prelude.{◌≡◌};
ghost use Rattle.layout.specs.Lookups.{replaced};
ghost use Rattle.memory.specs.Views.{thread_view, read_mark};
ghost use Rattle.rules.specs.Begin.{fresh};
ghost use Rattle.rules.specs.Load.{grown, has_read, is_full};
ghost use Rattle.rules.specs.NewEngine.{new_thread};
ghost use Rattle.rules.specs.States.{with_reads, with_writes};

use super::Thread;
use layout::entries::{ReadEntry, WriteEntry};
use layout::log::Log;
use layout::stripe_id::StripeId;
use rules::phase::Phase;

impl Thread {
    // An idle thread with empty logs; the stripe fills places of the read log that are not used yet.
    pub(crate) fn new(stripe: StripeId) -> Thread
        ensures { thread_view result ≡ new_thread }
    {
        Thread {
            phase: Phase::Idle,
            snapshot: 0,
            reads: Log::empty_over(ReadEntry { stripe, version: 0 }),
            writes: Log::empty_over(WriteEntry {
                address: 0,
                word: 0,
            }),
        }
    }

    // Whether the stripe is in the read log.
    pub(crate) fn has_read(&self, stripe: StripeId) -> bool
        ensures { result ≡ has_read (thread_view self.now) stripe.number }
    {
        self.reads.find(stripe.number()).is_some()
    }

    // Whether the read log is full. The proof of a load did not close with `reads.is_full()` in place of this.
    pub(crate) fn reads_full(&self) -> bool
        ensures { result ≡ is_full (thread_view self.now).reads }
    {
        self.reads.is_full()
    }

    // Starts a transaction of this snapshot end, with empty logs.
    pub(crate) fn start(&mut self, end: u32)
        ensures { thread_view self.new ≡ fresh end }
    {
        self.phase = Phase::Running;
        self.snapshot = end;
        self.reads.clear();
        self.writes.clear();
    }

    // Notes a stripe that was read.
    pub(crate) fn note_read(&mut self, entry: ReadEntry)
        ensures { thread_view self.new ≡ with_reads (thread_view self.old) (grown (thread_view self.old).reads (read_mark entry)) }
    {
        let _ = self.reads.push(entry);
    }

    // Notes a word that is to be written. It is no one function with the one above: each says which log grows.
    pub(crate) fn note_write(&mut self, entry: WriteEntry)
        ensures { thread_view self.new ≡ with_writes (thread_view self.old) (grown (thread_view self.old).writes entry) }
    {
        let _ = self.writes.push(entry);
    }

    // Replaces the word that is to be written at a logged address.
    pub(crate) fn rewrite(&mut self, entry: WriteEntry)
        ensures { thread_view self.new ≡ with_writes (thread_view self.old) (replaced (λ e. e.address) entry (thread_view self.old).writes) }
    {
        self.writes.replace(entry);
    }
}

ghost use Rattle.std.specs.Prelude.{◌≡◌};
ghost use Rattle.contention.specs.Ranks.{no_counts, count_of, grown, cleared, outranks};

use common::thread_id::ThreadId;
use std::cmp::Reverse;

// A count for each thread, in an array in place, since nothing allocates. A count stops at `u32::MAX`.
#[derive(Clone, Copy)]
pub struct Counts {
    cells: [u32; 8],
}

impl Counts {
    // Counts of 0 for all threads.
    pub(crate) fn new() -> Counts
        ensures { result.cells ≡ no_counts }
    {
        Counts { cells: [0; 8] }
    }

    // The count of a thread.
    pub(crate) fn of(&self, thread: ThreadId) -> u32
        ensures { result ≡ count_of self.now.cells thread.number }
    {
        let place = thread.index();
        self.cells[place]
    }

    // Raises the count of a thread by so much.
    pub(crate) fn raise(&mut self, thread: ThreadId, by: u32)
        ensures { self.new.cells ≡ grown self.old.cells thread.number by }
    {
        let raised = self.of(thread).saturating_add(by);
        self.cells[thread.index()] = raised;
    }

    // Returns the count of a thread to 0.
    pub(crate) fn clear(&mut self, thread: ThreadId)
        ensures { self.new.cells ≡ cleared self.old.cells thread.number }
    {
        self.cells[thread.index()] = 0;
    }

    // Whether the first thread has the higher count, or the lower number at equal counts.
    pub(crate) fn outranks(&self, first: ThreadId, second: ThreadId) -> bool
        ensures { result ≡ outranks self.now.cells first.number second.number }
    {
        (Reverse(self.of(first)), first) < (Reverse(self.of(second)), second)
    }
}

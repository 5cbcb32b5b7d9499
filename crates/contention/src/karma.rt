ghost use Rattle.std.specs.Prelude.{◌≡◌};
ghost use Rattle.contention.specs.Policies.{karma_points, new_karma, karma_table, karma_moved};

use crate::counts::Counts;
use crate::policy::Policy;
use common::thread_id::ThreadId;

// The thread that did more work since its last seal beats: a count survives a loss.
// Beside KillPrio and not one generic type with it: `Counts` has what both share, and each event but the seal moves them differently.
#[derive(Clone, Copy)]
pub struct Karma {
    counts: Counts,
}

impl Karma {
    // The policy with all counts 0.
    pub fn new() -> Karma
        ensures { result ≡ new_karma }
    {
        Karma {
            counts: Counts::new(),
        }
    }
}

impl Policy for Karma {
    const LOAD_POINTS: u32 = 1;

    const TAKE_POINTS: u32 = 10;

    ghost LOAD_POINTS = { karma_points.load };

    ghost TAKE_POINTS = { karma_points.take };

    ghost table = { karma_table };

    ghost moved = { karma_moved };

    fn beats(&self, first: ThreadId, second: ThreadId) -> bool {
        self.counts.outranks(first, second)
    }

    fn loaded(&mut self, thread: ThreadId) {
        self.counts.raise(thread, Self::LOAD_POINTS);
    }

    fn took(&mut self, thread: ThreadId) {
        self.counts.raise(thread, Self::TAKE_POINTS);
    }

    fn won(&mut self, _winner: ThreadId, _loser: ThreadId) {}

    fn sealed(&mut self, thread: ThreadId) {
        self.counts.clear(thread);
    }
}

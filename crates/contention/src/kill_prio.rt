ghost use Rattle.std.specs.Prelude.{◌≡◌};
ghost use Rattle.contention.specs.Policies.{no_points, new_kill_prio, kill_prio_table, kill_prio_moved};

use crate::counts::Counts;
use crate::policy::Policy;
use common::thread_id::ThreadId;

// The thread that won over more since its last seal beats: a winner takes over what the loser had won.
// At Karma stands why the two are not one type.
#[derive(Clone, Copy)]
pub struct KillPrio {
    counts: Counts,
}

impl KillPrio {
    // The policy with all counts 0.
    pub fn new() -> KillPrio
        ensures { result ≡ new_kill_prio }
    {
        KillPrio {
            counts: Counts::new(),
        }
    }
}

impl Policy for KillPrio {
    const LOAD_POINTS: u32 = 0;

    const TAKE_POINTS: u32 = 0;

    ghost LOAD_POINTS = { no_points.load };

    ghost TAKE_POINTS = { no_points.take };

    ghost table = { kill_prio_table };

    ghost moved = { kill_prio_moved };

    fn beats(&self, first: ThreadId, second: ThreadId) -> bool {
        self.counts.outranks(first, second)
    }

    fn loaded(&mut self, _thread: ThreadId) {}

    fn took(&mut self, _thread: ThreadId) {}

    fn won(&mut self, winner: ThreadId, loser: ThreadId) {
        let gain = self.counts.of(loser).saturating_add(1);
        self.counts.raise(winner, gain);
    }

    fn sealed(&mut self, thread: ThreadId) {
        self.counts.clear(thread);
    }
}

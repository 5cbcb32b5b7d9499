ghost use Rattle.contention.specs.Policies.{no_points, each_beats_other, unmoved};

use crate::policy::Policy;
use common::thread_id::ThreadId;

// Each thread beats each other: who finds a stripe held takes it. At Suicide stands why the two are not one type.
#[derive(Clone, Copy)]
pub struct Aggressive;

impl Policy for Aggressive {
    const LOAD_POINTS: u32 = 0;

    const TAKE_POINTS: u32 = 0;

    ghost LOAD_POINTS = { no_points.load };

    ghost TAKE_POINTS = { no_points.take };

    ghost table = { λ _. each_beats_other };

    ghost moved = { unmoved };

    fn beats(&self, first: ThreadId, second: ThreadId) -> bool {
        first != second
    }

    fn loaded(&mut self, _thread: ThreadId) {}

    fn took(&mut self, _thread: ThreadId) {}

    fn won(&mut self, _winner: ThreadId, _loser: ThreadId) {}

    fn sealed(&mut self, _thread: ThreadId) {}
}

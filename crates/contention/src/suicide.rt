ghost use Rattle.contention.specs.Policies.{no_points, nobody_beats, unmoved};

use crate::policy::Policy;
use common::thread_id::ThreadId;

// Nobody beats anybody: who finds a stripe held gives way.
// Beside Aggressive and not one generic type with it: the name is a value, which an alias of a generic type is not.
#[derive(Clone, Copy)]
pub struct Suicide;

impl Policy for Suicide {
    const LOAD_POINTS: u32 = 0;

    const TAKE_POINTS: u32 = 0;

    ghost LOAD_POINTS = { no_points.load };

    ghost TAKE_POINTS = { no_points.take };

    ghost table = { λ _. nobody_beats };

    ghost moved = { unmoved };

    fn beats(&self, _first: ThreadId, _second: ThreadId) -> bool {
        false
    }

    fn loaded(&mut self, _thread: ThreadId) {}

    fn took(&mut self, _thread: ThreadId) {}

    fn won(&mut self, _winner: ThreadId, _loser: ThreadId) {}

    fn sealed(&mut self, _thread: ThreadId) {}
}

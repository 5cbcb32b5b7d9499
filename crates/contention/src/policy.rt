ghost use Rattle.std.specs.Prelude.{◌≡◌, ℕ, Bool};
ghost use Rattle.contention.specs.Events.{Event, word_loaded, stripe_taken, win_over, seal_of};
ghost use Rattle.contention.specs.declared.policy.Points.{Points};

use common::thread_id::ThreadId;

// What a policy counts for a loaded word and for a taken stripe.
#[derive(Clone, Copy, PartialEq, Eq, Debug)]
pub struct Points {
    pub load: u32,
    pub take: u32,
}

// A table that says of each two different threads whether the first beats the second now,
// the rule by which what the policy is told moves it, and its points.
pub trait Policy {
    // The points for a loaded word.
    const LOAD_POINTS: u32;

    // The points for a taken stripe.
    const TAKE_POINTS: u32;

    // The two constants as clauses name them: the check proves them equal.
    ghost LOAD_POINTS: { ℕ };

    ghost TAKE_POINTS: { ℕ };

    // Whether the first thread beats the second now, by their numbers.
    ghost table: { Self → ℕ → ℕ → Bool };

    // The policy after an event, by its own rule.
    ghost moved: { Self → Event → Self };

    // Whether the first thread beats the second now. Asking changes nothing.
    fn beats(&self, first: ThreadId, second: ThreadId) -> bool
        ensures { result ≡ table self.now first.number second.number };

    // Tells that the thread loaded a word.
    fn loaded(&mut self, thread: ThreadId)
        ensures { self.new ≡ moved self.old (word_loaded thread.number) };

    // Tells that the thread took a stripe.
    fn took(&mut self, thread: ThreadId)
        ensures { self.new ≡ moved self.old (stripe_taken thread.number) };

    // Tells that the winner won over the loser.
    fn won(&mut self, winner: ThreadId, loser: ThreadId)
        ensures { self.new ≡ moved self.old (win_over winner.number loser.number) };

    // Tells that the thread sealed.
    fn sealed(&mut self, thread: ThreadId)
        ensures { self.new ≡ moved self.old (seal_of thread.number) };

    // The points for a loaded word and for a taken stripe.
    fn points() -> Points
        ensures { result ≡ record { load = LOAD_POINTS; take = TAKE_POINTS } }
    {
        Points {
            load: Self::LOAD_POINTS,
            take: Self::TAKE_POINTS,
        }
    }
}

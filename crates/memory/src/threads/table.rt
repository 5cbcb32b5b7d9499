ghost use Rattle.std.specs.Prelude.{◌≡◌, ◌≤◌, take};
ghost use Rattle.std.specs.Fn.{FnOnceReturnsAtMut};
ghost use Rattle.memory.specs.Edits.{Edited};
ghost use Rattle.memory.specs.Views.{thread_table, thread_view};
ghost use Rattle.rules.specs.Maps.{at, everywhere};
ghost use Rattle.rules.specs.NewEngine.{new_thread};

use super::{Thread, Threads};
use common::thread_id::ThreadId;
use layout::stripe_id::StripeId;
use std::ops::Index;

// The thread of a number.
impl Index<ThreadId> for Threads {
    type Output = Thread;

    ghost index_gives = { λ threads id thread. thread_view thread ≡ at (thread_table threads.all) id.number };

    #[tactic(auto, using(crate::proofs::Tables::at_threads))]
    fn index(&self, id: ThreadId) -> &Thread {
        &self.all[id.index()]
    }
}

impl Threads {
    // All threads idle, with empty logs; the stripe fills places of the read logs that are not used yet.
    pub(crate) fn new(stripe: StripeId) -> Threads
        ensures { thread_table result.all ≡ everywhere new_thread }
    {
        Threads {
            all: [Thread::new(stripe); 8],
        }
    }

    // The threads up to the one of this number.
    pub(crate) fn up_to(&self, last: u32) -> &[Thread]
        requires { last ≤ 8 }
        ensures { result.now ≡ take last self.now.all }
    {
        &self.all[..last as usize]
    }

    // Edits the thread of this number in its place, so that it is not copied. What is done to it comes as a closure: a
    // `&mut` to an element of an array that is handed out has no proof of its clause yet.
    pub(crate) fn edit<F: FnOnce(&mut Thread)>(&mut self, thread: ThreadId, edit: F)
        requires { F.IsAlwaysCallable edit }
        ensures { Edited (λ before after. FnOnceReturnsAtMut F.FnOnce edit before tt after) self.old.all self.new.all thread.number }
    {
        let all = &mut self.all;
        edit(&mut all[thread.index()]);
    }
}

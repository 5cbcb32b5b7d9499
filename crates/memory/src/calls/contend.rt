ghost use Rattle.std.specs.Prelude.{◌≡◌};
ghost use Rattle.contention.specs.Events.{after_events};
ghost use Rattle.memory.specs.Views.{engine_view, owner_number};
ghost use Rattle.rules.specs.Conflicts.{contended, rival_of};
ghost use Rattle.rules.specs.Outcomes.{Stepped, step_told};

use crate::memory::Memory;
use common::loss::Loss;
use common::thread_id::ThreadId;
use contention::policy::Policy;

impl<S, P: Policy> Memory<S, P> {
    // Meets this owner of a stripe: where it is another running thread, the one that the policy does not favour is lost.
    pub(crate) fn contend(&mut self, thread: ThreadId, owner: Option<ThreadId>) -> Result<(), Loss>
        ensures step { Stepped (contended (P.table self.old.policy) (engine_view self.old.engine) thread.number (rival_of (engine_view self.old.engine) thread.number (owner_number owner))) result (engine_view self.new.engine) }
        ensures told { self.new.policy ≡ after_events P.moved self.old.policy (step_told (contended (P.table self.old.policy) (engine_view self.old.engine) thread.number (rival_of (engine_view self.old.engine) thread.number (owner_number owner)))) }
        ensures words_kept { self.new.words ≡ self.old.words }
    {
        let Some(rival) = self.engine.rival(thread, owner) else {
            return Ok(());
        };
        if !self.policy.beats(thread, rival) {
            let holder = rival.number();
            return Err(self.engine.lose(thread, Loss::Beaten { holder }));
        }
        let thief = thread.number();
        self.engine.lose(rival, Loss::Stolen { thief });
        self.policy.won(thread, rival);
        Ok(())
    }
}

ghost use Rattle.std.specs.Prelude.{◌≡◌};
ghost use Rattle.memory.specs.Views.{engine_view};
ghost use Rattle.rules.specs.Roll.{idle_to, rolled};

use crate::engine::Engine;
use rules::phase::Phase;

impl Engine {
    // Whether every thread of the set-up is idle.
    pub(crate) fn is_all_idle(&self) -> bool
        ensures { result ≡ idle_to (engine_view self.now) self.now.set_up.threads }
    {
        self.threads
            .up_to(self.set_up.threads())
            .iter()
            .all(|thread| thread.phase == Phase::Idle)
    }

    // The clock and all versions at 0, and the mark off.
    pub(crate) fn roll(&mut self)
        ensures { engine_view self.new ≡ rolled (engine_view self.old) }
    {
        self.clock = 0;
        self.mark = false;
        self.stripes.roll();
    }
}

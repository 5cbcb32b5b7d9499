ghost use Rattle.std.specs.Prelude.{◌≡◌};
ghost use Rattle.memory.specs.Views.{engine_view};

use crate::memory::Memory;
use layout::set_up::SetUp;

impl<S, P> Memory<S, P> {
    // The set-up that the memory was made with.
    pub fn set_up(&self) -> SetUp
        ensures { result ≡ (engine_view self.now.engine).set_up }
    {
        self.engine.set_up
    }
}

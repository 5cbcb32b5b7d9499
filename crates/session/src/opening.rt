ghost use Rattle.std.specs.Prelude.{◌≤◌};

use forms::form::EngineForm;
use layout::set_up::SetUp;

// The most words that an engine of the console has.
pub const MOST_WORDS: u32 = 256;

// An engine that a line makes: its set-up, and the form that asks for it.
#[derive(Clone, Copy)]
pub struct Opening {
    pub set_up: SetUp,
    pub engine: EngineForm,
    ghost small: { engine.words ≤ 256 },
}

use crate::stripes::Stripes;
use crate::threads::Threads;
use layout::set_up::SetUp;

mod admission;
mod conflicts;
mod edits;
mod roll;

// The set-up, the clock, the roll mark, and the tables of stripes and threads. The mark stands beside the clock, and not
// in its place: under the mark the clock is still read, by loads and by readers' seals. It has no model, as the tables have
// none.
#[derive(Drop)]
pub struct Engine {
    pub(crate) set_up: SetUp,
    pub(crate) clock: u32,
    pub(crate) mark: bool,
    pub(crate) stripes: Stripes,
    pub(crate) threads: Threads,
}

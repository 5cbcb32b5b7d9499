use layout::entries::{ReadEntry, WriteEntry};
use layout::log::Log;
use rules::phase::Phase;

mod edits;
mod table;

// A thread: what it is doing, its snapshot end, and its two logs. It has no model, as a log has none.
#[derive(Clone, Copy)]
pub struct Thread {
    pub phase: Phase,
    pub snapshot: u32,
    pub reads: Log<ReadEntry>,
    pub writes: Log<WriteEntry>,
}

// All threads, by number. They lie in place, since the engine never allocates. They have no model, as the stripes have
// none.
#[derive(Drop)]
pub struct Threads {
    all: [Thread; 8],
}

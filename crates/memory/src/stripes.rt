use common::thread_id::ThreadId;

mod table;

// A stripe: the ticket of the updater that was drained into it last, and the thread that owns it.
#[derive(Clone, Copy)]
pub struct Stripe {
    pub version: u32,
    pub owner: Option<ThreadId>,
}

// All stripes, by number. They lie in place, since the engine never allocates. They have no model: contracts see them as
// a table of the rules, which is a function, and a model's value cannot be one.
#[derive(Clone, Copy)]
pub struct Stripes {
    all: [Stripe; 64],
}

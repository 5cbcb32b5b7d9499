use memory::memory::Memory;

// A memory, and which threads' tickets are given out, thread 1 first.
#[derive(Drop)]
pub struct Tasks<S, P> {
    pub(crate) memory: Memory<S, P>,
    // An array in place, one flag for each thread, since nothing allocates.
    pub(crate) claims: [bool; 8],
}

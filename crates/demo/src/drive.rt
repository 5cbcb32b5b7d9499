use crate::page;
use contention::policy::Policy;
use layout::set_up::SetUp;
use memory::memory::Memory;
use rules::call::Call;
use std::io;
use stores::word_store::WordStore;

// Threads enough for the three tasks.
pub const THREADS: u32 = 3;

// A stripe for each of the three words, and one more.
pub const STRIPES: u32 = 4;

// All bits of an address pick its stripe.
pub const SHIFT: u32 = 0;

// More tickets than are given here.
pub const CLOCK_LIMIT: u32 = 1000;

// The memory that the tasks of a drive share. Each call is made, and printed with its answer.
#[derive(Drop)]
pub struct Drive<'a, S, P> {
    pub(crate) rt: &'a HostRuntime,
    pub(crate) set_up: SetUp,
    pub(crate) memory: Memory<S, P>,
}

// The set-up of every drive here, with this clock limit.
pub fn three_tasks(limit: u32) -> io::Result<SetUp> {
    SetUp::new(THREADS, STRIPES, SHIFT, limit).map_err(|_| io::Error::other(
        "the set-up is refused",
    ))
}

impl<'a, S: WordStore, P: Policy> Drive<'a, S, P> {
    // A drive whose words lie in a store.
    pub fn new(rt: &'a HostRuntime, set_up: SetUp, store: S, policy: P) -> Drive<'a, S, P> {
        let memory = Memory::new(set_up, store, policy);
        Drive { rt, set_up, memory }
    }

    // Prints what happens next.
    pub fn note(&mut self, text: &str) -> io::Result<()> {
        page::note(self.rt, text)
    }

    // Makes calls, one after another, and prints each with its answer.
    pub(crate) fn make(&mut self, calls: &[Call]) -> io::Result<()> {
        for call in calls {
            let answer = self.memory.perform(*call);
            page::call(self.rt, *call, answer)?;
        }
        Ok(())
    }
}

// Shows something on a new drive over a store; the drive is gone after it, so that its cells can be read.
pub(crate) fn on_drive<
    S: WordStore + Drop,
    P: Policy + Drop,
    F: FnOnce(&mut Drive<'_, S, P>) -> io::Result<()>,
>(rt: &HostRuntime, store: S, policy: P, show: F) -> io::Result<()>
    requires { F.IsAlwaysCallable show }
{
    let mut drive = Drive::new(rt, three_tasks(CLOCK_LIMIT)?, store, policy);
    show(&mut drive)
}

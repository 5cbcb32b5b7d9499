use common::loss::Loss;
use common::refusal::Refusal;
use contention::aggressive::Aggressive;
use layout::set_up::SetUp;
use memory::memory::Memory;
use rules::ending::{Ending, Sealed};
use rules::stop::Stop;
use std::test::Fail;
use stores::plain::PlainStore;
use stores::window::Window;

#[test]
fn a_parked_task_is_told_who_took_its_stripe(rt: HostRuntime) -> Result<(), Fail> {
    let mut cells = [0u32; 8];
    let set_up = SetUp::new(2, 4, 0, 1)?;
    let mut memory = Memory::new(
        set_up,
        Window::new(PlainStore::new(&mut cells), 4, 4),
        Aggressive,
    );
    memory.begin(1)?;
    memory.begin(2)?;
    memory.store(1, 0, 5)?;
    memory.store(2, 0, 7)?;
    assert_eq!(rt; memory.seal(1), Err(Stop::Refused(Refusal::AlreadyLost)));
    assert_eq!(rt; memory.back(1), Ok(Ending::Lost(Loss::Stolen { thief: 2 })));
    assert_eq!(rt; memory.seal(2), Ok(Sealed::Updater { ticket: 1 }));
    assert_eq!(rt; memory.peek(0), Ok(8_589_934_593));
    assert_eq!(rt; memory.drain(2), Ok(0));
    assert_eq!(rt; memory.peek(0), Ok(2));
    let _ = memory.into_parts();
    Ok(())
}

#[test]
fn a_spent_clock_loses_the_updater_and_stops_begins(rt: HostRuntime) -> Result<(), Fail> {
    let mut cells = [0u32; 8];
    let set_up = SetUp::new(2, 4, 8, 1)?;
    let mut memory = Memory::new(set_up, PlainStore::new(&mut cells), Aggressive);
    memory.begin(1)?;
    memory.store(1, 7, 5)?;
    memory.seal(1)?;
    memory.drain(1)?;
    memory.begin(1)?;
    memory.store(1, 7, 6)?;
    assert_eq!(rt; memory.seal(1), Err(Stop::Lost(Loss::ClockSpent)));
    assert_eq!(rt; memory.begin(2), Err(Refusal::RollPending));
    assert_eq!(rt; memory.back(1), Ok(Ending::Lost(Loss::ClockSpent)));
    let _ = memory.into_parts();
    Ok(())
}

use common::refusal::Refusal;
use contention::suicide::Suicide;
use layout::set_up::SetUp;
use memory::memory::Memory;
use rules::stop::Stop;
use std::mem::size_of;
use std::test::Fail;
use stores::plain::PlainStore;

#[test]
fn numbers_that_do_not_fit_are_refused(rt: HostRuntime) -> Result<(), Fail> {
    let mut cells = [0u32; 8];
    let set_up = SetUp::new(2, 4, 0, 3)?;
    let mut memory = Memory::new(set_up, PlainStore::new(&mut cells), Suicide);
    assert_eq!(rt; memory.begin(0), Err(Refusal::NoSuchThread));
    assert_eq!(rt; memory.begin(3), Err(Refusal::NoSuchThread));
    assert_eq!(rt; memory.drain(u32::MAX), Err(Refusal::NoSuchThread));
    assert_eq!(rt; memory.load(1, 0), Err(Stop::Refused(Refusal::WrongState)));
    memory.begin(1)?;
    assert_eq!(rt; memory.load(1, 8), Err(Stop::Refused(Refusal::NoSuchPlace)));
    assert_eq!(rt;
        memory.store(1, u32::MAX, 1),
        Err(Stop::Refused(Refusal::NoSuchPlace))
    );
    assert_eq!(rt; memory.begin(1), Err(Refusal::WrongState));
    assert_eq!(rt; memory.drain(1), Err(Refusal::WrongState));
    assert_eq!(rt; memory.peek(4), Err(Refusal::NoSuchPlace));
    let _ = memory.into_parts();
    Ok(())
}

#[test]
fn an_engine_fits_six_kibibytes(rt: HostRuntime) {
    assert!(rt; size_of::<Memory<PlainStore, Suicide>>() <= 6144);
}

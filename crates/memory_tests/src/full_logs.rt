use common::refusal::Refusal;
use contention::suicide::Suicide;
use layout::set_up::SetUp;
use memory::memory::Memory;
use rules::stop::Stop;
use std::test::Fail;

#[test]
fn a_full_write_log_takes_only_logged_addresses(rt: HostRuntime) -> Result<(), Fail> {
    let mut cells = [0u32; 40];
    let set_up = SetUp::new(1, 1, 0, 3)?;
    let mut memory = Memory::new(set_up, &mut cells[..], Suicide);
    memory.begin(1)?;
    for address in 0..32 {
        memory.store(1, address, 1)?;
    }
    assert_eq!(rt;
        memory.store(1, 32, 1),
        Err(Stop::Refused(Refusal::LogFull))
    );
    memory.store(1, 31, u32::MAX)?;
    assert_eq!(rt; memory.load(1, 31), Ok(u32::MAX));
    let _ = memory.into_parts();
    Ok(())
}

#[test]
fn a_full_read_log_takes_only_logged_stripes(rt: HostRuntime) -> Result<(), Fail> {
    let mut registers = [0u16; 81];
    let set_up = SetUp::new(1, 64, 0, 3)?;
    let mut memory = Memory::new(set_up, &mut registers[..], Suicide);
    memory.begin(1)?;
    for address in 0..32 {
        memory.load(1, address)?;
    }
    assert_eq!(rt; memory.load(1, 32), Err(Stop::Refused(Refusal::LogFull)));
    assert_eq!(rt; memory.load(1, 31), Ok(0));
    assert_eq!(rt;
        memory.load(1, 40),
        Err(Stop::Refused(Refusal::NoSuchPlace))
    );
    let _ = memory.into_parts();
    Ok(())
}

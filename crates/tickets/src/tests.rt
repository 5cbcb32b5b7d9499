use crate::outcomes::Sealing;
use crate::tasks::Tasks;
use common::refusal::Refusal;
use contention::suicide::Suicide;
use layout::set_up::SetUp;
use rules::stop::Stop;
use std::test::Fail;
use stores::plain::PlainStore;

#[test]
fn a_thread_is_claimed_once(rt: HostRuntime) -> Result<(), Fail> {
    let mut cells = [0u32; 4];
    let set_up = SetUp::new(2, 4, 0, 9)?;
    let mut tasks = Tasks::new(set_up, PlainStore::new(&mut cells), Suicide);
    assert_eq!(rt; tasks.claim(0).err(), Some(Refusal::NoSuchThread));
    assert_eq!(rt; tasks.claim(3).err(), Some(Refusal::NoSuchThread));
    let ticket = tasks.claim(2)?;
    assert_eq!(rt; tasks.claim(2).err(), Some(Refusal::AlreadyClaimed));
    tasks.hand_in(ticket);
    assert!(rt; tasks.claim(2).is_ok());
    Ok(())
}

#[test]
fn a_ticket_of_another_memory_is_refused(rt: HostRuntime) -> Result<(), Fail> {
    let mut cells = [0u32; 4];
    let mut others = [0u32; 4];
    let mut tasks = Tasks::new(
        SetUp::new(2, 4, 0, 9)?,
        PlainStore::new(&mut cells),
        Suicide,
    );
    let mut small = Tasks::new(
        SetUp::new(1, 4, 0, 9)?,
        PlainStore::new(&mut others),
        Suicide,
    );
    let ticket = tasks.claim(2)?;
    let kept = small.begin(ticket).err().ok_or("begun")?;
    assert_eq!(rt; kept.reason, Refusal::NoSuchThread);
    let open = tasks.begin(kept.ticket).ok().ok_or("refused")?;
    let refused = Err(Stop::Refused(Refusal::NoSuchThread));
    assert_eq!(rt; small.load(&open, 0), refused);
    assert_eq!(rt; tasks.load(&open, 0), Ok(0));
    Ok(())
}

#[test]
fn a_reader_has_its_ticket_back_and_begins_again(rt: HostRuntime) -> Result<(), Fail> {
    let mut cells = [7u32; 4];
    let set_up = SetUp::new(2, 4, 0, 9)?;
    let mut tasks = Tasks::new(set_up, PlainStore::new(&mut cells), Suicide);
    let idle = tasks.claim(1)?;
    let open = tasks.begin(idle).ok().ok_or("refused")?;
    assert_eq!(rt; tasks.load(&open, 3), Ok(7));
    match tasks.seal(open) {
        Ok(Sealing::Reader { ticket, snapshot }) => {
            assert!(rt; snapshot == 0);
            assert!(rt; tasks.begin(ticket).is_ok());
            Ok(())
        }
        Ok(Sealing::Updater { ticket, number: _ }) => {
            let _ = tasks.drain_all(ticket);
            Err(Fail::new("an updater"))
        }
        Err(_) => Err(Fail::new("refused or lost")),
    }
}

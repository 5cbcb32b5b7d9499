use super::change;
use crate::tasks::Tasks;
use common::refusal::Refusal;
use contention::suicide::Suicide;
use layout::set_up::SetUp;
use rules::stop::Stop;
use std::test::Fail;
use stores::plain::PlainStore;

#[test]
fn a_keypad_changes_two_words(rt: HostRuntime) -> Result<(), Fail> {
    let mut cells = [0u32; 4];
    let set_up = SetUp::new(2, 4, 0, 9)?;
    let mut tasks = Tasks::new(set_up, PlainStore::new(&mut cells), Suicide);
    change(&mut tasks, 1, 0, 1450)?;
    change(&mut tasks, 1, 3, 95_000)?;
    assert_eq!(rt;
        change(&mut tasks, 1, 4, 1),
        Err(Stop::Refused(Refusal::NoSuchPlace))
    );
    let _ = tasks.into_parts();
    assert_eq!(rt; cells[0], 1450);
    assert_eq!(rt; cells[3], 95_000);
    Ok(())
}

use crate::counts::Counts;
use crate::karma::Karma;
use crate::kill_prio::KillPrio;
use crate::policy::Policy;
use common::thread_id::ThreadId;
use std::test::Fail;

// The thread of a number.
fn thread(number: u32) -> Result<ThreadId, &'static str> {
    ThreadId::new(number).ok_or("no such thread")
}

#[test]
fn at_equal_counts_the_lower_number_beats(rt: HostRuntime) -> Result<(), Fail> {
    let (two, five) = (thread(2)?, thread(5)?);
    let policy = Karma::new();
    assert!(rt; policy.beats(two, five));
    assert!(rt; !policy.beats(five, two));
    assert!(rt; !policy.beats(two, two));
    Ok(())
}

#[test]
fn counts_stop_at_the_top(rt: HostRuntime) -> Result<(), Fail> {
    let three = thread(3)?;
    let mut counts = Counts::new();
    counts.raise(three, u32::MAX - 1);
    counts.raise(three, 10);
    assert_eq!(rt; counts.of(three), u32::MAX);
    Ok(())
}

#[test]
fn karma_survives_a_win_and_ends_at_the_seal(rt: HostRuntime) -> Result<(), Fail> {
    let (one, eight) = (thread(1)?, thread(8)?);
    let mut policy = Karma::new();
    policy.took(one);
    policy.took(eight);
    policy.loaded(eight);
    policy.won(one, eight);
    assert!(rt; policy.beats(eight, one));
    policy.sealed(eight);
    assert!(rt; policy.beats(one, eight));
    Ok(())
}

#[test]
fn a_winner_takes_over_the_losers_wins(rt: HostRuntime) -> Result<(), Fail> {
    let (one, two, three) = (thread(1)?, thread(2)?, thread(3)?);
    let mut policy = KillPrio::new();
    policy.won(two, one);
    policy.won(one, three);
    assert!(rt; policy.beats(one, two), "one win each");
    policy.won(three, two);
    assert!(rt; policy.beats(three, one), "2 against 1");
    policy.sealed(three);
    assert!(rt; policy.beats(one, three));
    Ok(())
}

#[test]
fn wins_stop_at_the_top(rt: HostRuntime) -> Result<(), Fail> {
    let (one, two) = (thread(1)?, thread(2)?);
    let mut policy = KillPrio::new();
    policy.won(one, two);
    policy.won(two, one);
    assert!(rt; policy.beats(two, one));
    for _ in 0..24 {
        policy.won(one, two);
        policy.won(two, one);
    }
    assert!(rt; policy.beats(one, two), "both counts are at the top");
    Ok(())
}

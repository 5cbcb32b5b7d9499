use crate::entries::{ReadEntry, WriteEntry};
use crate::lock_word::LockWord;
use crate::log::Log;
use crate::set_up::SetUp;
use common::refusal::Refusal;
use std::mem::size_of;
use std::test::Fail;

// The highest version, and the highest clock limit.
const TOP: u32 = 0x7fff_ffff;

// What stands in the places of a log that are not used yet.
const BLANK: WriteEntry = WriteEntry {
    address: 0,
    word: 0,
};

#[test]
fn set_ups_at_their_limits(rt: HostRuntime) {
    assert_eq!(rt; SetUp::new(1, 1, 0, 1).err(), None);
    assert_eq!(rt; SetUp::new(8, 64, 8, TOP).err(), None);
    assert_eq!(rt; SetUp::new(0, 0, 9, 0).err(), Some(Refusal::ThreadCount));
    assert_eq!(rt; SetUp::new(9, 64, 8, TOP).err(), Some(Refusal::ThreadCount));
    assert_eq!(rt; SetUp::new(1, 0, 9, 0).err(), Some(Refusal::StripeCount));
    assert_eq!(rt; SetUp::new(1, 24, 8, TOP).err(), Some(Refusal::StripeCount));
    assert_eq!(rt;
        SetUp::new(1, 128, 8, TOP).err(),
        Some(Refusal::StripeCount)
    );
    assert_eq!(rt; SetUp::new(1, 1, 9, 0).err(), Some(Refusal::Shift));
    assert_eq!(rt; SetUp::new(1, 1, 8, 0).err(), Some(Refusal::ClockLimit));
    assert_eq!(rt;
        SetUp::new(1, 1, 8, TOP + 1).err(),
        Some(Refusal::ClockLimit)
    );
}

#[test]
fn stripes_and_threads_of_a_set_up(rt: HostRuntime) -> Result<(), Fail> {
    let set_up = SetUp::new(2, 16, 4, 1)?;
    assert_eq!(rt; set_up.stripe_of(u32::MAX).number(), 15);
    assert_eq!(rt; set_up.stripe_of(0x120).index(), 2);
    assert_eq!(rt; set_up.stripe(15)?.number(), 15);
    assert_eq!(rt; set_up.stripe(16).err(), Some(Refusal::NoSuchPlace));
    assert_eq!(rt; set_up.thread(2)?.number(), 2);
    assert_eq!(rt; set_up.thread(0).err(), Some(Refusal::NoSuchThread));
    assert_eq!(rt; set_up.thread(3).err(), Some(Refusal::NoSuchThread));
    Ok(())
}

#[test]
fn a_full_log(rt: HostRuntime) -> Result<(), Fail> {
    let mut log = Log::empty_over(BLANK);
    assert!(rt; log.is_empty());
    for address in 0..32 {
        log.push(WriteEntry { address, word: 1 })?;
    }
    assert!(rt; log.is_full());
    let past = WriteEntry {
        address: 40,
        word: 1,
    };
    assert_eq!(rt; log.push(past).err(), Some(Refusal::LogFull));
    assert_eq!(rt; log.len(), 32);
    assert!(rt; log.find(40).is_none());
    log.replace(WriteEntry {
        address: 31,
        word: 7,
    });
    assert_eq!(rt; log.find(31).ok_or("lost")?.word, 7);
    assert_eq!(rt; log.get(30).ok_or("lost")?.word, 1);
    log.clear();
    assert_eq!(rt; log.entries().len(), 0);
    Ok(())
}

#[test]
fn the_first_match_counts(rt: HostRuntime) -> Result<(), Fail> {
    let stripe = SetUp::new(1, 64, 0, 1)?.stripe_of(5);
    let mut log = Log::empty_over(ReadEntry { stripe, version: 0 });
    log.push(ReadEntry { stripe, version: 1 })?;
    log.push(ReadEntry { stripe, version: 2 })?;
    log.replace(ReadEntry { stripe, version: 3 });
    assert_eq!(rt; log.find(5), Some(ReadEntry { stripe, version: 3 }));
    assert_eq!(rt; log.get(1), Some(ReadEntry { stripe, version: 2 }));
    assert!(rt; log.find(6).is_none());
    Ok(())
}

// The bits of a lock word.
fn bits(version: u32, owner: u32) -> Result<u64, Refusal> {
    LockWord { version, owner }.try_into()
}

#[test]
fn lock_words(rt: HostRuntime) -> Result<(), Fail> {
    assert_eq!(rt; bits(0, 2)?, 8_589_934_593);
    assert_eq!(rt; bits(1, 0)?, 2);
    let word = LockWord {
        version: 0,
        owner: 2,
    };
    assert_eq!(rt; LockWord::try_from(8_589_934_593)?, word);
    assert_eq!(rt; bits(TOP, 8)?, 0x8_ffff_ffff);
    assert_eq!(rt; bits(TOP + 1, 0).err(), Some(Refusal::LockWord));
    assert_eq!(rt; bits(0, 9).err(), Some(Refusal::LockWord));
    for no_word in [1, 1 << 32, 9 << 32 | 1, 1 << 40 | 1] {
        assert_eq!(rt; LockWord::try_from(no_word).err(), Some(Refusal::LockWord));
    }
    Ok(())
}

#[test]
fn a_log_stays_small(rt: HostRuntime) {
    assert!(rt; size_of::<Log<WriteEntry>>() <= 272);
}

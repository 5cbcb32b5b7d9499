use crate::drive::{CLOCK_LIMIT, Drive, SHIFT, STRIPES, THREADS, on_drive};
use crate::names::{FACTORY, Task, WORDS, Word};
use crate::page;
use crate::service::{take_apart, try_set_up};
use contention::policy::Policy;
use contention::suicide::Suicide;
use layout::set_up::SetUp;
use std::io;
use stores::plain::PlainStore;
use stores::word_store::WordStore;

// Bits that name an owner, thread 1, and do not say that there is one.
const NO_LOCK_WORD: u64 = 1 << 32;

// What does not fit is refused by its number, and changes nothing.
pub fn show(rt: &HostRuntime) -> io::Result<()> {
    page::heading(rt, "4. What does not fit is refused (plain store, Suicide)")?;
    set_ups(rt)?;
    let mut cells = [0; WORDS];
    on_drive(rt, PlainStore::new(&mut cells), Suicide, calls)?;
    page::note(
        rt,
        "Bits that name an owner without saying that there is one.",
    )?;
    take_apart(rt, NO_LOCK_WORD)
}

// A set-up within the limits, and four with one number beyond them.
fn set_ups(rt: &HostRuntime) -> io::Result<()> {
    page::note(rt, "Set-ups.")?;
    for (action, threads, stripes, shift, limit) in [
        (
            "set up 3 threads, 4 stripes",
            THREADS,
            STRIPES,
            SHIFT,
            CLOCK_LIMIT,
        ),
        ("set up 9 threads", 9, STRIPES, SHIFT, CLOCK_LIMIT),
        ("set up 3 stripes", THREADS, 3, SHIFT, CLOCK_LIMIT),
        ("set up shift 9", THREADS, STRIPES, 9, CLOCK_LIMIT),
        ("set up clock limit 0", THREADS, STRIPES, SHIFT, 0),
    ] {
        try_set_up(rt, action, SetUp::new(threads, stripes, shift, limit))?;
    }
    Ok(())
}

// Calls that are refused, and a lock word.
fn calls<S: WordStore, P: Policy>(drive: &mut Drive<'_, S, P>) -> io::Result<()> {
    drive.note("The keypad gives the words their first values.")?;
    drive.change(Task::Keypad, FACTORY)?;
    drive.note("Threads that the drive does not have.")?;
    drive.make(&[
        Task::Unknown(0).begin(),
        Task::Unknown(4).begin(),
        Task::Unknown(9).begin(),
    ])?;
    states(drive)?;
    places(drive)?;
    lock_words(drive)
}

// Calls in a state that they are not for.
fn states<S: WordStore, P: Policy>(drive: &mut Drive<'_, S, P>) -> io::Result<()> {
    drive.note("A load without a begin, a begin while running, a drain without a seal.")?;
    drive.make(&[
        Task::ControlLoop.load(Word::Speed),
        Task::ControlLoop.begin(),
        Task::ControlLoop.begin(),
        Task::ControlLoop.drain(),
    ])
}

// Addresses at and beyond the size; the transaction goes on.
fn places<S: WordStore, P: Policy>(drive: &mut Drive<'_, S, P>) -> io::Result<()> {
    drive.note(
        "The address at the size and the largest one; the transaction goes on, and is given up.",
    )?;
    drive.make(&[
        Task::ControlLoop.load(Word::Unknown(WORDS as u32)),
        Task::ControlLoop.store(Word::Unknown(u32::MAX), 1),
        Task::ControlLoop.load(Word::Speed),
        Task::ControlLoop.back(),
    ])
}

// The lock word of a stripe with and without an owner, and of one that is not there.
fn lock_words<S: WordStore, P: Policy>(drive: &mut Drive<'_, S, P>) -> io::Result<()> {
    drive.note("The lock word of the speed, free and held, and a stripe beyond the count.")?;
    drive.peek_at(Word::Speed)?;
    drive.make(&[
        Task::Fieldbus.begin(),
        Task::Fieldbus.store(Word::Speed, FACTORY.speed),
    ])?;
    drive.peek_at(Word::Speed)?;
    drive.peek(STRIPES)?;
    drive.make(&[Task::Fieldbus.back()])
}

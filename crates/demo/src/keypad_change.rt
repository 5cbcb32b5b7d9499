use crate::drive::{Drive, on_drive};
use crate::names::{FACTORY, Settings, Task, WORDS, Word};
use crate::page;
use contention::policy::Policy;
use contention::suicide::Suicide;
use std::io;
use stores::plain::PlainStore;
use stores::word_store::WordStore;

// What the keypad changes the settings to first.
const FASTER: Settings = Settings {
    ramp: 2000,
    speed: 1450,
    current_limit: 95000,
};

// What it changes them to next.
const SLOWER: Settings = Settings {
    ramp: 2500,
    speed: 900,
    current_limit: 60000,
};

// The loop reads while the keypad changes all three words: it gets all old or all new ones, never a mixture.
pub fn show(rt: &HostRuntime) -> io::Result<()> {
    page::heading(
        rt,
        "1. The keypad changes three words in one transaction (plain store, Suicide)",
    )?;
    let mut cells = [0; WORDS];
    on_drive(rt, PlainStore::new(&mut cells), Suicide, all_old_or_all_new)?;
    println!(rt; "\nThe cells of the plain store: {cells:?}\n")
}

// The reads of the loop around two changes.
fn all_old_or_all_new<S: WordStore, P: Policy>(drive: &mut Drive<'_, S, P>) -> io::Result<()> {
    drive.note("The keypad gives the words their first values.")?;
    drive.change(Task::Keypad, FACTORY)?;
    drive.note("Before the change: the loop reads the old words.")?;
    drive.read(Task::ControlLoop)?;
    old_before_the_seal(drive)?;
    busy_until_drained(drive)?;
    overtaken(drive)
}

// Until the keypad seals, nobody sees its words.
fn old_before_the_seal<S: WordStore, P: Policy>(drive: &mut Drive<'_, S, P>) -> io::Result<()> {
    drive.note("During the change, before its seal: the loop still has all old words.")?;
    drive.make(&[Task::Keypad.begin(), Task::ControlLoop.begin()])?;
    drive.load_all(Task::ControlLoop)?;
    drive.store_all(Task::Keypad, FASTER)?;
    drive.make(&[Task::ControlLoop.seal()])?;
    drive.note("The loop asks again before the seal, meets the keypad and gives way.")?;
    drive.make(&[
        Task::ControlLoop.begin(),
        Task::ControlLoop.load(Word::Ramp),
        Task::ControlLoop.back(),
    ])
}

// From the seal to the last drain the words are refused, and from then on they are new.
fn busy_until_drained<S: WordStore, P: Policy>(drive: &mut Drive<'_, S, P>) -> io::Result<()> {
    drive.note("Between the seal and the last drain the loop is refused, and tries again.")?;
    drive.make(&[Task::Keypad.seal(), Task::ControlLoop.begin()])?;
    for _ in 0..WORDS {
        drive.make(&[Task::ControlLoop.load(Word::Ramp), Task::Keypad.drain()])?;
    }
    drive.note("After the change: the loop reads the new words.")?;
    drive.load_all(Task::ControlLoop)?;
    drive.make(&[Task::ControlLoop.seal()])
}

// A loop that has read an old word meets a new one: it is lost, goes back and reads the new ones.
fn overtaken<S: WordStore, P: Policy>(drive: &mut Drive<'_, S, P>) -> io::Result<()> {
    drive.note("The loop has read one old word when the keypad changes all three.")?;
    drive.make(&[
        Task::ControlLoop.begin(),
        Task::ControlLoop.load(Word::Ramp),
    ])?;
    drive.change(Task::Keypad, SLOWER)?;
    drive.note("The next word would be a new one: the loop is lost, goes back and reads again.")?;
    drive.make(&[
        Task::ControlLoop.load(Word::Speed),
        Task::ControlLoop.back(),
    ])?;
    drive.read(Task::ControlLoop)
}

use crate::drive::{Drive, on_drive};
use crate::names::{FACTORY, Task, WORDS, Word};
use crate::page;
use contention::aggressive::Aggressive;
use contention::policy::Policy;
use std::io;
use stores::register::RegisterStore;
use stores::word_store::WordStore;

// Two registers to a word.
const REGISTERS: usize = 2 * WORDS;

// The speed that the keypad asks for.
pub const KEYPAD_SPEED: u32 = 1450;

// The ramp that the keypad asks for.
pub const KEYPAD_RAMP: u32 = 2000;

// The speed that the fieldbus asks for.
pub const FIELDBUS_SPEED: u32 = 900;

// The keypad is parked in the middle of a change, and the fieldbus does not wait for it.
pub fn show(rt: &HostRuntime) -> io::Result<()> {
    page::heading(
        rt,
        "2. The parked keypad loses its stripe at once (register store, Aggressive)",
    )?;
    let mut registers = [0; REGISTERS];
    let store = RegisterStore::new(&mut registers);
    on_drive(rt, store, Aggressive, taken_at_once)?;
    println!(rt; "\nThe registers, two to a word: {registers:?}\n")
}

// The fieldbus takes the stripe at once, and the keypad learns of it when it wakes up.
fn taken_at_once<S: WordStore, P: Policy>(drive: &mut Drive<'_, S, P>) -> io::Result<()> {
    drive.note("The keypad gives the words their first values.")?;
    drive.change(Task::Keypad, FACTORY)?;
    park(drive)?;
    drive.peek_at(Word::Speed)?;
    drive.note("The fieldbus wants the same word, and wins.")?;
    drive.make(&[
        Task::Fieldbus.begin(),
        Task::Fieldbus.store(Word::Speed, FIELDBUS_SPEED),
    ])?;
    drive.peek_at(Word::Speed)?;
    drive.make(&[Task::Fieldbus.seal(), Task::Fieldbus.drain()])?;
    wake(drive)?;
    drive.note("The keypad begins again.")?;
    drive.make(&[
        Task::Keypad.begin(),
        Task::Keypad.store(Word::Speed, KEYPAD_SPEED),
        Task::Keypad.seal(),
        Task::Keypad.drain(),
    ])
}

// The keypad stores a word, holds its stripe and stops.
pub fn park<S: WordStore, P: Policy>(drive: &mut Drive<'_, S, P>) -> io::Result<()> {
    drive.note("The keypad stores a word, holds its stripe and is parked.")?;
    drive.make(&[
        Task::Keypad.begin(),
        Task::Keypad.store(Word::Speed, KEYPAD_SPEED),
    ])
}

// The keypad goes on with a transaction that was lost meanwhile.
pub fn wake<S: WordStore, P: Policy>(drive: &mut Drive<'_, S, P>) -> io::Result<()> {
    drive.note("The keypad wakes up: its transaction is lost, and it goes back.")?;
    drive.make(&[
        Task::Keypad.store(Word::Ramp, KEYPAD_RAMP),
        Task::Keypad.seal(),
        Task::Keypad.back(),
    ])
}

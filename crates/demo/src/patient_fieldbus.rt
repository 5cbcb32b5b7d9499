use crate::drive::{Drive, on_drive};
use crate::names::{FACTORY, Task, WORDS, Word};
use crate::page;
use crate::parked_keypad::{FIELDBUS_SPEED, park, wake};
use contention::karma::Karma;
use contention::policy::Policy;
use std::io;
use stores::plain::PlainStore;
use stores::window::Window;
use stores::word_store::WordStore;

// The cells of the whole store.
const CELLS: usize = 8;

// What the cells outside of the window hold.
const FOREIGN: u32 = 7;

// The cell in which the window begins.
const BASE: u32 = 4;

// The same under Karma: the fieldbus gives way until it has done more than the keypad.
pub fn show(rt: &HostRuntime) -> io::Result<()> {
    page::heading(
        rt,
        "3. The parked keypad loses its stripe to more work (window of a plain store, Karma)",
    )?;
    let mut cells = [FOREIGN; CELLS];
    let window = Window::new(PlainStore::new(&mut cells), BASE, WORDS as u32);
    on_drive(rt, window, Karma::new(), earned)?;
    println!(rt; "\nThe cells, {WORDS} of them in the window from cell {BASE} on: {cells:?}\n")
}

// The fieldbus loses twice, keeps its count and wins at last.
fn earned<S: WordStore, P: Policy>(drive: &mut Drive<'_, S, P>) -> io::Result<()> {
    drive.note("The keypad gives the words their first values; its seal returns its count to 0.")?;
    drive.change(Task::Keypad, FACTORY)?;
    park(drive)?;
    drive.note(
        "The keypad has 10 points for the stripe, the fieldbus none: the fieldbus is lost.",
    )?;
    want_speed(drive, 0)?;
    drive.make(&[Task::Fieldbus.back()])?;
    drive.note("Six loads, six points, still below 10: it is lost again, and keeps its points.")?;
    want_speed(drive, 3)?;
    drive.make(&[Task::Fieldbus.back()])?;
    drive.note("Six more, and 12 points are ahead of 10: the fieldbus wins.")?;
    want_speed(drive, 3)?;
    finish(drive)
}

// The fieldbus begins, loads the other two words this often, which counts 2 each time, and asks for the word that the
// keypad holds.
fn want_speed<S: WordStore, P: Policy>(drive: &mut Drive<'_, S, P>, rounds: u32) -> io::Result<()> {
    drive.make(&[Task::Fieldbus.begin()])?;
    for _ in 0..rounds {
        drive.make(&[
            Task::Fieldbus.load(Word::Ramp),
            Task::Fieldbus.load(Word::CurrentLimit),
        ])?;
    }
    drive.make(&[Task::Fieldbus.store(Word::Speed, FIELDBUS_SPEED)])
}

// The keypad learns of its loss, and the fieldbus seals.
fn finish<S: WordStore, P: Policy>(drive: &mut Drive<'_, S, P>) -> io::Result<()> {
    wake(drive)?;
    drive.note("The fieldbus seals its change.")?;
    drive.make(&[Task::Fieldbus.seal(), Task::Fieldbus.drain()])
}

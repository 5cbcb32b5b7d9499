// Shows what the memory does for the tasks of a drive: one printed line for each call, with its answer.
#![tactic(auto)]

mod answers;
mod by_ticket;
mod drive;
mod keypad_change;
mod names;
mod page;
mod parked_keypad;
mod patient_fieldbus;
mod refusals;
mod roll_over;
mod rounds;
mod service;

use std::io;

// Runs the demonstration; if it cannot print, says why.
fn main(rt: HostRuntime) -> io::Result<()> {
    run(&rt)
}

// Shows one section after the other.
fn run(rt: &HostRuntime) -> io::Result<()> {
    keypad_change::show(rt)?;
    parked_keypad::show(rt)?;
    patient_fieldbus::show(rt)?;
    refusals::show(rt)?;
    roll_over::show(rt)?;
    by_ticket::show(rt)
}

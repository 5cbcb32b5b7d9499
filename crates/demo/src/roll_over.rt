use crate::drive::three_tasks;
use crate::names::{Task, WORDS, Word};
use crate::page;
use contention::suicide::Suicide;
use history::run::run;
use history::turn::Turn;
use rules::call::Call;
use std::alloc::AllocError;
use std::io;
use stores::plain::PlainStore;

// A clock that is spent after three changes.
const THREE_CHANGES: u32 = 3;

// A call, and what is said before it.
#[derive(Clone, Copy)]
struct Step {
    note: Option<&'static str>,
    call: Call,
}

// The clock is spent and rolls over; the calls are made as one list.
// The turns lie in a list of their own, since `run` takes turns, and a turn has no note.
pub fn show(rt: &HostRuntime) -> io::Result<()> {
    println!(rt; "")?;
    page::heading(
        rt,
        "5. The clock rolls over (plain store, Suicide, clock limit 3)",
    )?;
    let set_up = three_tasks(THREE_CHANGES)?;
    let mut cells = [0; WORDS];
    let mut steps = Vec::new(rt.alloc());
    until_spent(&mut steps)?;
    until_rolled(&mut steps)?;
    let mut turns = steps
        .iter()
        .map(|step| Turn {
            call: step.call,
            answer: None,
        })
        .collect::<Vec<_>>(rt.alloc())?;
    let _ = run(set_up, PlainStore::new(&mut cells), Suicide, &mut turns);
    for (step, turn) in steps.iter().zip(turns.iter()) {
        if let Some(note) = step.note {
            page::note(rt, note)?;
        }
        if let Some(answer) = turn.answer {
            page::call(rt, turn.call, answer)?;
        }
    }
    println!(rt; "\nThe cells of the plain store: {cells:?}")
}

// Changes until the clock is at its limit, beside a loop that reads.
fn until_spent(steps: &mut Vec<Step>) -> Result<(), AllocError> {
    let (keypad, control) = (Task::Keypad, Task::ControlLoop);
    add(
        steps,
        Some("The keypad presses Up: one change."),
        &change(1210),
    )?;
    add(steps, Some("A roll is not due yet."), &[Call::Roll])?;
    add(
        steps,
        Some("The loop begins at ticket 1, and stays."),
        &[control.begin(), control.load(Word::Speed)],
    )?;
    add(steps, Some("The keypad keeps pressing Up."), &change(1220))?;
    add(steps, None, &change(1230))?;
    add(
        steps,
        Some("The clock is spent: the next change is lost, and the roll mark is on."),
        &[
            keypad.begin(),
            keypad.store(Word::Speed, 1240),
            keypad.seal(),
        ],
    )
}

// The roll, and what is read and changed after it.
fn until_rolled(steps: &mut Vec<Step>) -> Result<(), AllocError> {
    let (keypad, control) = (Task::Keypad, Task::ControlLoop);
    add(
        steps,
        Some("Nobody begins any more, and the roll waits for those under way."),
        &[
            Task::Fieldbus.begin(),
            Call::Roll,
            keypad.back(),
            Call::Roll,
        ],
    )?;
    add(
        steps,
        Some("The loop from before goes back as well, and the clock starts anew."),
        &[control.back(), Call::Roll],
    )?;
    add(
        steps,
        Some(
            "No version outlived the roll: the loop reads as of 0, and the first change has ticket 1.",
        ),
        &read(),
    )?;
    add(steps, None, &change(1240))?;
    add(steps, None, &read())
}

// Adds calls, with what is said before the first of them.
fn add(
    steps: &mut Vec<Step>,
    note: Option<&'static str>,
    calls: &[Call],
) -> Result<(), AllocError> {
    let mut note = note;
    for call in calls {
        steps.push(Step {
            note: note.take(),
            call: *call,
        })?;
    }
    Ok(())
}

// A change of the speed by the keypad, to its last drain.
fn change(speed: u32) -> [Call; 4] {
    let keypad = Task::Keypad;
    [
        keypad.begin(),
        keypad.store(Word::Speed, speed),
        keypad.seal(),
        keypad.drain(),
    ]
}

// A transaction in which the loop reads the speed.
fn read() -> [Call; 3] {
    let control = Task::ControlLoop;
    [control.begin(), control.load(Word::Speed), control.seal()]
}

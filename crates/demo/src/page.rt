use crate::answers::{Action, Told};
use crate::names::Task;
use rules::answer::Answer;
use rules::call::Call;
use std::fmt::Display;
use std::io;

// The name under which the engineer acts who watches the drive.
pub const SERVICE: &str = "service";

// Prints the heading of a section.
pub fn heading(rt: &HostRuntime, text: &str) -> io::Result<()> {
    println!(rt; "== {text} ==")
}

// Prints what happens next.
pub fn note(rt: &HostRuntime, text: &str) -> io::Result<()> {
    println!(rt; "\n{text}")
}

// Prints one action: who acts, what it does and what it is answered.
pub fn line<W: Display + Drop, A: Display + Drop, D: Display + Drop>(
    rt: &HostRuntime,
    who: W,
    action: A,
    answer: D,
) -> io::Result<()> {
    let who = who.to_string(rt.alloc())?;
    let action = action.to_string(rt.alloc())?;
    println!(rt; "{who:<10}{action:<30}{answer}")
}

// Prints a call with its answer. A roll is made by the service.
pub(crate) fn call(rt: &HostRuntime, call: Call, answer: Answer) -> io::Result<()> {
    match call {
        Call::Begin { thread }
        | Call::Load { thread, .. }
        | Call::Store { thread, .. }
        | Call::Seal { thread }
        | Call::Drain { thread }
        | Call::Back { thread } => line(rt, Task::from(thread), Action(call), Told(answer)),
        Call::Roll => line(rt, SERVICE, Action(call), Told(answer)),
    }
}

// Runs scripts through the console's script run, and prints each line with its answer.
#![tactic(auto)]

use session::run::{BYTES_FOR_A_LINE, run_script};
use std::fs;
use std::io::Write;
use text::line::{Lines, line_count};

// The scripts, in the order in which they are shown.
const SCRIPTS: [&str; 13] = [
    "two_tasks.script",
    "faults.script",
    "refusals.script",
    "full_logs.script",
    "stealing_suicide.script",
    "stealing_aggressive.script",
    "stealing_karma.script",
    "stealing_killprio.script",
    "torn_read.script",
    "roll_over.script",
    "limit_one.script",
    "no_words.script",
    "empty.script",
];

// Shows each script; if one cannot be shown, says why.
fn main(rt: HostRuntime) -> anyhow::Result<()> {
    run(&rt)
}

// One script after the other.
fn run(rt: &HostRuntime) -> anyhow::Result<()> {
    for name in SCRIPTS {
        println!(rt; "== {name} ==")?;
        show(rt, name)?;
    }
    Ok(())
}

// Runs a script, and shows what it prints. The room is made here, since the crates below the programs allocate nothing.
fn show(rt: &HostRuntime, name: &str) -> anyhow::Result<()> {
    let script = fs::read(rt, name)?;
    let room = line_count(&script).saturating_mul(BYTES_FOR_A_LINE);
    let mut output = vec![in rt.alloc(); 0u8; room]?;
    match run_script(&script, &mut output) {
        Ok(end) => {
            output.truncate(end);
            show_lines(rt, &script, &output)
        }
        Err(refusal) => {
            let number = refusal.number();
            println!(rt; "refused {number}")?;
            Ok(())
        }
    }
}

// Prints each line of a script with the line that answers it.
fn show_lines(rt: &HostRuntime, script: &[u8], output: &[u8]) -> anyhow::Result<()> {
    for (said, answer) in Lines::new(script).zip(Lines::new(output)) {
        let mut out = rt.stdout();
        out.write_all(said.bytes)?;
        out.write_all(b" > ")?;
        out.write_all(answer.bytes)?;
        out.write_all(b"\n")?;
    }
    Ok(())
}

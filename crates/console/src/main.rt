// Answers a script of forms: the file that the command line names, or standard input, line by line as it comes.
#![tactic(auto)]

mod feed;
mod serve;
mod whole;

use std::env;

// Answers the script; if it cannot be answered, says why.
fn main(rt: HostRuntime) -> anyhow::Result<()> {
    run(&rt)
}

// A file is answered whole, standard input line by line.
fn run(rt: &HostRuntime) -> anyhow::Result<()> {
    let mut words = env::args(rt)?;
    let _program = words.next();
    match words.next() {
        Some(path) => whole::answer_file(rt, path.as_str()),
        None => serve::answer_input(rt),
    }
}

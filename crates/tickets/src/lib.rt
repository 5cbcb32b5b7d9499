// A memory whose threads are given out as tickets: a task holds a ticket in place of a thread number, and what its
// transaction is not ready for does not build.
#![tactic(auto)]

mod calls;
mod example;
pub mod outcomes;
pub mod tasks;
#[cfg(test)]
mod tests;
pub mod ticket;

// Contention policies: which of two threads that want one stripe goes on.
#![tactic(auto)]

pub mod aggressive;
pub mod counts;
pub mod karma;
pub mod kill_prio;
pub mod policy;
pub mod suicide;
#[cfg(test)]
mod tests;

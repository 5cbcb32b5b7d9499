// A transactional word memory: words in any store, contention by any policy, six calls by thread number and a roll of the clock.
#![tactic(auto)]

mod calls;
mod engine;
pub mod memory;
mod stripes;
mod threads;

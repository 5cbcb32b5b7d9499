// The words that every layer shares: refusals and losses with their numbers, and thread numbers.
#![tactic(auto)]

pub mod loss;
pub mod refusal;
pub mod thread_id;

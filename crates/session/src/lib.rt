// A script of forms, answered line by line: before an engine is made, and then on a memory of any store and policy.
#![tactic(auto)]

pub mod console_refusal;
pub mod on_engine;
pub mod open_line;
pub mod opening;
pub mod reply;
pub mod run;
mod script;
pub mod turn;

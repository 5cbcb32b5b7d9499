// The forms of a script: what a line asks for, or what is wrong with it.
#![tactic(auto)]

mod engine;
pub mod form;
pub mod form_fault;
mod head;
mod item;
mod names;
mod numbers;
pub mod read;
#[cfg(test)]
mod tests;

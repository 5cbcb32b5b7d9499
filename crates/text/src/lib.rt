// The text of a script: its lines, which bytes may follow each other in one, and the tokens of a line.
#![tactic(auto)]

pub mod cursor;
pub mod line;
pub mod numeral;
pub mod place;
mod split;
#[cfg(test)]
mod tests;
pub mod text_fault;
pub mod token;

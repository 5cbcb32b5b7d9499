// Printing of the console's lines into a lent output. What does not fit is cut off.
#![tactic(auto)]

pub mod page;
#[cfg(test)]
mod tests;

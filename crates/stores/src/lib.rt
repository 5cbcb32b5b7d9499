// Word stores: memory that is read and written one word of 32 bits at a time.
#![tactic(auto)]

mod cell;
pub mod lent;
pub mod plain;
pub mod register;
#[cfg(test)]
mod tests;
pub mod window;
pub mod word_store;

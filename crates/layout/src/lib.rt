// The pieces that an engine is made of: its set-up, its stripes, its logs with their one lookup, and its lock words.
#![tactic(auto)]

pub mod entries;
pub mod keyed;
pub mod lock_word;
pub mod log;
pub mod lookup;
pub mod set_up;
pub mod stripe_id;
#[cfg(test)]
mod tests;

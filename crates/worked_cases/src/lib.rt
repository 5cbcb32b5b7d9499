// Worked cases, proved of the definitions that the contracts cite.
#![tactic(auto)]

pub mod cases;

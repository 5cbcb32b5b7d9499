// Whole runs of calls: what they answer and leave, and the law that they keep.
#![tactic(auto)]

pub mod run;
pub mod teeth;
pub mod turn;

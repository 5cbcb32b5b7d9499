// What every call answers and leaves, as definitions (in specs/), with the enums in which callers meet it.
#![tactic(auto)]

pub mod answer;
pub mod call;
pub mod ending;
pub mod kind;
pub mod phase;
pub mod stop;

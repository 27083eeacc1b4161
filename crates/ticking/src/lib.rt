// One tick of all schedules as code; what becomes of port values; whether a state is in its range.
#![tactic(auto)]

pub mod range;
pub mod schedules;
pub mod values;

// Numbers 6 to 10 as code: what the rows of a mode must be, each row against the rows before it, and its units. A search finds the
// lowest row that breaks a rule, of a clash the later one.
#![tactic(auto)]

pub mod invocations;
pub mod switches;
pub mod units;
pub mod updates;
pub mod whole;

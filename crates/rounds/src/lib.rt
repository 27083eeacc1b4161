// Numbers 14 and 15: the worst-case run of a supplier's schedule code over the round of each mode, over ticks and rows, never back.
#![tactic(auto)]

pub mod every_mode;
mod own;
mod round;
mod units;

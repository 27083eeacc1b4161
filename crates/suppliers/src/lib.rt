// Windows and a supplier's schedule code: numbers 12 and 13.
#![tactic(auto)]

pub mod joined;
pub mod parts;
mod schedule_rows;
pub mod window_rows;

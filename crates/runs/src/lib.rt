// Runs of one supplier's schedule code: windows, the block of an address, a tick, a unit. Knows no program.
#![tactic(auto)]

pub mod block;
pub mod turn;
pub mod unit;
pub mod window;

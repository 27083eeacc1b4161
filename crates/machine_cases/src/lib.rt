// The kinds of cases of a program and of the machine: `verdict`, `fresh`, `advance`, `run` and `long`.
#![tactic(auto)]

pub mod advance;
mod lines;
pub mod long;
pub mod programs;
mod systems;

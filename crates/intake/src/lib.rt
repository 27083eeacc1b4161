// What the shipped program reads: a text of numbers, a byte at a time, into one lent room.
#![tactic(auto)]

mod bytes;
mod lines;
pub mod shape;
pub mod state;
pub mod tables;

// Cases out of files: numbers, slices, programs and states out of a stream of lines, into buffers of fixed size.
#![tactic(auto)]

pub mod error;
pub mod numbers;
pub mod out;
pub mod room;
pub mod states;
pub mod stream;
pub mod tables;

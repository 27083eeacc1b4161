// The answer of the shipped program to what it has read, the pages that it prints, and the buffers that it needs.
#![tactic(auto)]

pub mod answer;
pub mod memory;
pub mod pages;
pub mod printing;

// The leaf: numbers of lent tables by row and named column, parts of a slice, the four kinds and their rows, limits, refusal numbers.
// Every access is total.
#![tactic(auto)]

pub mod codes;
pub mod columns;
pub mod drivers;
pub mod kinds;
pub mod limits;
pub mod modes;
pub mod parts;
pub mod ports;
pub mod refusals;
pub mod table;
pub mod tables;
pub mod tasks;

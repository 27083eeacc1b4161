// What the tables of a program say, as code: the sets of 001, guards that can hold together, the units of a mode, the rows that
// are due. A function that is lent some of the ten tables promises its definition for every program that has them.
#![tactic(auto)]

pub mod due;
pub mod guard;
pub mod members;
pub mod multiples;
pub mod rows;

// E code of a block, written into a lent slice: the rows that are due, the parts of a block.
#![tactic(auto)]

pub mod blocks;
pub mod rows;
pub mod sensors;
pub mod switches;

// Numbers 1 and 2 as code: whole rows within limits, every field in range and naming something. A row's test has no loop; each
// search finds the lowest bad row of one table.
#![tactic(auto)]

mod ranges;
pub mod searches;
pub mod slices;

// Numbers 3, 4 and 5 as code: task ports, guards and copies, and mode ports, each row against the rows before it, so that a search finds
// the later row of a clash.
#![tactic(auto)]

pub mod copies;
pub mod guards;
pub mod mode_ports;
pub mod task_ports;

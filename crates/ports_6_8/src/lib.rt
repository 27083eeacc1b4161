// Numbers 6, 7 and 8 ask of a task's ports, a mode's ports and a driver's copies whether one of them is wrong. What is wrong of a port
// the caller says by a test, which is asked only in rows that count.
#![tactic(auto)]

mod copies;
pub mod destinations;
pub mod mode_ports;
pub mod sources;
pub mod task_ports;

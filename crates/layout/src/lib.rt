// Where each block of the listing stands, and the delay of each `future`: counted from the tables, without the code.
#![tactic(auto)]

pub mod addresses;
pub mod counts;
pub mod delays;

// Text: numbers out of bytes and into bytes, a line of bytes, the lines and the pages of a listing.
#![tactic(auto)]

mod decimal;
pub mod line;
pub mod listing;
pub mod number;
pub mod page;

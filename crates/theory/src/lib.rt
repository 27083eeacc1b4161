// What every call answers. What a number means is said in `cells`.

#![tactic(auto)]

pub mod scan;

// An answer: a number, and its place: `outer` is a table or a mode, `inner` its row or its tick; 0 and 0 where the number has no place.
#[derive(Clone, Copy)]
pub struct Answer {
    pub number: usize,
    pub outer: usize,
    pub inner: usize,
}

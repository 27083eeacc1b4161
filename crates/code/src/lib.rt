// E code: its instructions, the one listing of a program, and compiling it into a lent slice.
#![tactic(auto)]

use theory::Answer;

pub mod opcode;

// What compiling answers beside the slice: number and place, and the length in instructions, which is 0 where it refuses.
#[derive(Clone, Copy)]
pub struct Compiled {
    pub answer: Answer,
    pub length: usize,
}

// A part of a slice, cut to what there is.
ghost use Rattle.std.specs.Prelude.{◌*◌, ◌≡◌, take, drop};
ghost use Rattle.cells.specs.Limits.{words_each};

use crate::limits::Program;

// The n items of a room from a place on, or as many as there are.
pub fn part<T>(room: &[T], at: usize, n: usize) -> &[T]
    ensures { result.now ≡ take n (drop at room.now) }
{
    let from = at.min(room.len());
    let end = from + n.min(room.len() - from);
    &room[from..end]
}

// The words of the first n instructions of E code, or as many as there are.
pub fn words(code: &[u32], n: usize) -> &[u32]
    ensures { result.now ≡ take (words_each * n) code.now }
{
    if n <= code.len() / Program::WORDS {
        let end = n * Program::WORDS;
        return &code[..end];
    }
    code
}

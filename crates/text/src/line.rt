// A line of text, by value: its bytes in a room of fixed size, and how many there are.
ghost use Rattle.std.specs.Prelude.{◌+◌, ◌≤◌, [], ◌∷◌, length};
ghost use Rattle.text.specs.Decimal.{decimal};
ghost use Rattle.text.specs.Digits.{most_digits};
ghost use Rattle.text.specs.Listing.{spaced};
ghost use Rattle.text.specs.Line.{room, most_argument, Holds, Appended};

use crate::decimal::Digits;

// A line: the first `len` of its bytes are its text. The room is fixed, since there is no heap.
#[derive(Clone, Copy)]
pub struct Line {
    pub bytes: [u8; Line::ROOM],
    pub len: usize,
}

impl Line {
    // How many bytes a line can hold: more than any line of a listing has.
    pub const ROOM: usize = 64;

    // The empty line.
    #[tactic(auto, unfolding(crate::specs::Line::text_of))]
    pub fn new() -> Line
        ensures { Holds result [] }
    {
        Line {
            bytes: [0u8; Line::ROOM],
            len: 0,
        }
    }

    // The line with one byte more at its end.
    pub fn push(mut self, b: u8) -> Line
        requires { self.len + 1 ≤ room }
        ensures { Appended self result (b ∷ []) }
    {
        self.bytes[self.len] = b;
        self.len += 1;
        self
    }

    // The line with these bytes more at its end.
    pub fn word(mut self, more: &[u8]) -> Line
        requires { self.len + length more.now ≤ room }
        ensures { Appended self result more.now }
    {
        for b in more {
            self = self.push(*b);
        }
        self
    }

    // The line with a number more at its end, in decimal digits.
    pub fn number(self, n: usize) -> Line
        requires { self.len + most_digits ≤ room }
        ensures { Appended self result (decimal n) }
    {
        let digits = Digits::of(n);
        let bytes = digits.bytes;
        let from = digits.from;
        self.word(&bytes[from..])
    }

    // The line with a space and a number more at its end, in decimal digits.
    pub fn argument(self, n: usize) -> Line
        requires { self.len + most_argument ≤ room }
        ensures { Appended self result (spaced (n ∷ [])) }
    {
        self.push(b' ').number(n)
    }
}

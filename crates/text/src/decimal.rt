// The decimal digits of a number, written from the last to the first.
ghost use Rattle.text.specs.Digits.{Spelled};

// The digits of a number as bytes, at the end of a room of ten: they begin at place `from`. The room is fixed, since there is no heap; and
// `write!` would print all digits of a usize, where `decimal` has ten at most.
#[derive(Clone, Copy)]
pub struct Digits {
    pub bytes: [u8; Digits::MOST],
    pub from: usize,
}

impl Digits {
    // No number of 32 bits has more digits.
    pub const MOST: usize = 10;

    // The digits of n without zeros in front; where it has more than ten, the last ten.
    pub fn of(n: usize) -> Digits
        ensures { Spelled n result }
    {
        let mut bytes = [0u8; Digits::MOST];
        let mut rest = n;
        for from in (0..Digits::MOST).rev() {
            // A digit always fits a byte.
            bytes[from] = b'0' + (rest % 10) as u8;
            if rest < 10 {
                return Digits { bytes, from };
            }
            rest /= 10;
        }
        Digits { bytes, from: 0 }
    }
}

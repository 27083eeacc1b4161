// The number of a line of text, read a byte at a time: where the input is cut does not matter.
ghost use Rattle.std.specs.Prelude.{◌≡◌};
ghost use Rattle.std.proofs.Math.Option.{some};
ghost use Rattle.text.specs.Decimal.{negative, not_negative, as_word};
ghost use Rattle.text.specs.Part.{digits_after, part_after, signed_as, word_as, signed_of, word_in};

// No number of 32 bits is so large; a larger value is held at this one.
pub const TOO_LARGE: usize = 4294967296;

// The greatest signed number; the least one is one further from 0.
pub const FARTHEST: usize = 2147483647;

// The least signed number.
pub const LEAST: i32 = -2147483648;

// What was read of a line.
#[derive(Clone, Copy, Debug, PartialEq, Eq)]
pub enum Part {
    // Nothing yet.
    Start,
    // A minus.
    Minus,
    // Digits, behind a minus where the number is negative, and their value, TOO_LARGE at most.
    Digits { negative: bool, magnitude: usize },
    // A byte that fits nowhere.
    Bad,
}

// Digits of this value with one byte more behind them; one that is no digit fits nowhere.
#[tactic(auto, unfolding(crate::specs::Part::digits_after, crate::specs::Part::capped))]
fn longer(negative: bool, magnitude: usize, b: u8) -> Part
    ensures { result ≡ digits_after negative magnitude b }
{
    if !b.is_ascii_digit() {
        return Part::Bad;
    }
    let digit = usize::from(b - b'0');
    let before = magnitude.min(TOO_LARGE);
    Part::Digits {
        negative,
        magnitude: (before * 10 + digit).min(TOO_LARGE),
    }
}

// The number whose digits have this value without a minus.
fn from_zero(m: usize) -> Option<i32>
    ensures { result ≡ signed_as (not_negative (some m)) }
{
    i32::try_from(m).ok()
}

// The number whose digits have this value after a minus.
fn below_zero(m: usize) -> Option<i32>
    ensures { result ≡ signed_as (negative (some m)) }
{
    if m == FARTHEST + 1 {
        return Some(LEAST);
    }
    from_zero(m).map(|far| -far)
}

fn in_word(m: usize) -> Option<u32>
    ensures { result ≡ word_as (as_word (some m)) }
{
    u32::try_from(m).ok()
}

impl Part {
    // What was read of a line after one byte more.
    #[tactic(auto, unfolding(crate::specs::Part::part_after))]
    pub fn feed(self, b: u8) -> Part
        ensures { result ≡ part_after self b }
    {
        match self {
            Part::Start if b == b'-' => Part::Minus,
            Part::Start => longer(false, 0, b),
            Part::Minus => longer(true, 0, b),
            Part::Digits {
                negative,
                magnitude,
            } => longer(negative, magnitude, b),
            Part::Bad => Part::Bad,
        }
    }

    // What the line comes to as a signed number.
    #[tactic(auto, unfolding(crate::specs::Part::signed_of))]
    pub fn signed(self) -> Option<i32>
        ensures { result ≡ signed_of self }
    {
        match self {
            Part::Digits {
                negative: true,
                magnitude,
            } => below_zero(magnitude),
            Part::Digits {
                negative: false,
                magnitude,
            } => from_zero(magnitude),
            _ => None,
        }
    }

    // What the line comes to as a number that is not negative.
    #[tactic(auto, unfolding(crate::specs::Part::word_in))]
    pub fn word(self) -> Option<u32>
        ensures { result ≡ word_in self }
    {
        match self {
            Part::Digits {
                negative: false,
                magnitude,
            } => in_word(magnitude),
            _ => None,
        }
    }
}

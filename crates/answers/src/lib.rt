// What a call comes to: accepted, or refused, with a place or without one; and the answer that says so in numbers.
#![tactic(auto)]

ghost use Rattle.std.specs.Prelude.{◌≡◌, ℕ, Bool, Some, None, cond};
ghost use Rattle.theory.specs.Rows.{at_row, placeless};
ghost use Rattle.theory.specs.Verdict.{accepted_number, found_at};
ghost use Rattle.answers.specs.Answers.{answer_of, told_where, told_at};

use cells::refusals::{ACCEPTED, Refusal};
use theory::Answer;

// A refusal and its place: `outer` is a table or a mode, `inner` its row or its tick; 0 and 0 where the refusal has no place.
#[derive(Clone, Copy, Debug, PartialEq, Eq)]
pub struct Refused {
    pub refusal: Refusal,
    pub outer: usize,
    pub inner: usize,
}

// A refusal without a place.
impl From<Refusal> for Refused {
    ghost from_gives = { λ refusal told. told ≡ record { refusal = refusal; outer = 0; inner = 0 } };

    fn from(refusal: Refusal) -> Refused {
        Refused {
            refusal,
            outer: 0,
            inner: 0,
        }
    }
}

// What a call comes to, in numbers.
pub fn answer(outcome: Result<(), Refused>) -> Answer
    ensures { result ≡ answer_of outcome }
{
    match outcome {
        Ok(()) => Answer {
            number: ACCEPTED,
            outer: 0,
            inner: 0,
        },
        Err(refused) => Answer {
            number: usize::from(refused.refusal),
            outer: refused.outer,
            inner: refused.inner,
        },
    }
}

// Refused without a place where the refusal applies, else accepted.
pub fn refused_where(applies: bool, refusal: Refusal) -> Result<(), Refused>
    ensures { answer_of result ≡ told_where applies refusal }
{
    if applies {
        return Err(Refused::from(refusal));
    }
    Ok(())
}

// Refused at the row of a table that a search found, if it found one, else accepted.
pub fn refused_at(row: Option<usize>, refusal: Refusal, table: usize) -> Result<(), Refused>
    ensures { answer_of result ≡ told_at row refusal table }
{
    match row {
        Some(inner) => Err(Refused {
            refusal,
            outer: table,
            inner,
        }),
        None => Ok(()),
    }
}

// This number, whichever it is, without a place where it applies; else accepted.
pub fn where_applies(number: usize, applies: bool) -> Answer
    ensures { result ≡ cond applies (placeless number) (placeless accepted_number) }
{
    if !applies {
        return answer(Ok(()));
    }
    Answer {
        number,
        outer: 0,
        inner: 0,
    }
}

// What a search over so many rows of a table comes to: this number at the row where it ended, or accepted where it found none.
pub fn found(number: usize, table: usize, row: usize, count: usize) -> Answer
    ensures { result ≡ found_at number table row count }
{
    if count <= row {
        return answer(Ok(()));
    }
    Answer {
        number,
        outer: table,
        inner: row,
    }
}

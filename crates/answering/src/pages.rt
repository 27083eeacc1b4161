// The pages of an answer: which one comes next, what of it is still to be written, and how far a write has come.
ghost use Rattle.std.specs.Prelude.{◌≤◌, ◌≡◌, ℕ, List, true, false, length};
ghost use Rattle.text.specs.Line.{room, Holds};
ghost use Rattle.answering.specs.Answer.{answered};
ghost use Rattle.answering.specs.Writing.{opening_of, code_of, spread, page_of, rest_of, wrote_of};

use crate::answer::Shown;
use cells::parts::words;
use text::line::Line;
use text::{listing, page};

// A page: of the buffer the bytes `from` up to `len` are still to be written; instruction `next` begins the page behind it.
#[derive(Clone, Copy)]
pub struct Sheet {
    pub from: usize,
    pub len: usize,
    pub next: usize,
}

// What an answer begins with: `bad input`, or the number with its place, or 11 and that the listing is larger than is held.
#[tactic(auto, unfolding(crate::specs::Writing::opening_of))]
fn opening(shown: Shown) -> Line
    ensures { Holds result (opening_of shown) }
{
    match shown {
        Shown::Bad => listing::bad_line(),
        Shown::Larger => listing::larger_lines(),
        Shown::Said { answer, .. } => listing::answer_line(answer),
    }
}

// The words of the code whose lines follow what an answer begins with.
#[tactic(auto, unfolding(crate::specs::Writing::code_of))]
fn lines(shown: Shown, code: &[u32]) -> &[u32]
    ensures { result.now ≡ code_of (answered shown code.now) }
{
    match shown {
        Shown::Bad => &[],
        Shown::Larger => &[],
        Shown::Said { length, .. } => words(code, length),
    }
}

// The first page: what the answer begins with.
pub fn first(shown: Shown, buffer: &mut [u8]) -> Sheet
    requires { room ≤ length buffer.old }
    ensures { (code : List ℕ) (from : ℕ) → spread result buffer.new ≡ page_of (answered shown code) false from buffer.old }
{
    let len = page::lay(buffer, 0, opening(shown));
    Sheet {
        from: 0,
        len,
        next: 0,
    }
}

// A page behind the first: the lines from an instruction on, or none behind the last.
pub fn later(shown: Shown, from: usize, code: &[u32], buffer: &mut [u8]) -> Sheet
    requires { room ≤ length buffer.old }
    ensures { spread result buffer.new ≡ page_of (answered shown code.now) true from buffer.old }
{
    let filled = page::fill(lines(shown, code), from, buffer);
    Sheet {
        from: 0,
        len: filled.len,
        next: filled.next,
    }
}

// The page that comes next: what the answer begins with, or the lines from an instruction on, or none behind the last.
pub fn page(shown: Shown, begun: bool, from: usize, code: &[u32], buffer: &mut [u8]) -> Sheet
    requires { room ≤ length buffer.old }
    ensures { spread result buffer.new ≡ page_of (answered shown code.now) begun from buffer.old }
{
    if begun {
        return later(shown, from, code, buffer);
    }
    first(shown, buffer)
}

// What of a page is still to be written.
pub fn rest(sheet: Sheet, buffer: &[u8]) -> &[u8]
    ensures { result.now ≡ rest_of (spread sheet buffer.now) }
{
    let end = sheet.len.min(buffer.len());
    let from = sheet.from.min(end);
    &buffer[from..end]
}

// The page after a write that took n bytes: the rest of this one, or the next one.
pub fn wrote(shown: Shown, sheet: Sheet, n: usize, code: &[u32], buffer: &mut [u8]) -> Sheet
    requires { room ≤ length buffer.old }
    ensures { spread result buffer.new
        ≡ wrote_of (answered shown code.now) (spread sheet buffer.old) n }
{
    let left = rest(sheet, buffer).len();
    if n < left {
        return Sheet {
            from: sheet.from + n,
            ..sheet
        };
    }
    later(shown, sheet.next, code, buffer)
}

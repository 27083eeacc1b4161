// What is printed, page by page, in as many writes as it takes. After a write that fails nothing follows.
ghost use Rattle.std.specs.Prelude.{◌≤◌, false, length, IfOk, is_ok};
ghost use Rattle.text.specs.Line.{room};
ghost use Rattle.answering.specs.Answer.{answered};
ghost use Rattle.answering.specs.Writing.{spread, page_of, rest_of, Printed};

use crate::answer::Shown;
use crate::pages;
use crate::pages::Sheet;
use std::io;
use std::io::{ErrorKind, Write};

// What is left of a page is handed to one write: how many bytes it took.
fn hand<W: Write>(output: &mut W, sheet: Sheet, buffer: &[u8]) -> io::Result<usize>
    ensures { IfOk result (λ n. n ≤ length (rest_of (spread sheet buffer.now))) }
{
    streams::write_some(output, pages::rest(sheet, buffer))
}

// An answer is printed. It is written whole, or a write failed or took nothing.
pub fn print<W: Write>(
    output: &mut W,
    shown: Shown,
    code: &[u32],
    buffer: &mut [u8],
) -> io::Result<()>
    requires { room ≤ length buffer.old }
    ensures { Printed (answered shown code.now)
        (page_of (answered shown code.now) false 0 buffer.old) (is_ok result) buffer.new }
{
    let mut sheet = pages::first(shown, buffer);
    // A while: how many writes it takes is known to the writer alone.
    while 0 < pages::rest(sheet, buffer).len() {
        let n = hand(output, sheet, buffer)?;
        if n == 0 {
            return Err(io::Error::from(ErrorKind::WriteZero));
        }
        sheet = pages::wrote(shown, sheet, n, code, buffer);
    }
    Ok(())
}

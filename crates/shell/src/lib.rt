// The body of the shipped program: reads a program from a reader, compiles it, and prints on a writer.
#![tactic(auto)]

ghost use Rattle.std.specs.Prelude.{◌≤◌, ◌≡◌, length, is_ok};
ghost use Rattle.text.specs.Line.{room};
ghost use Rattle.intake.specs.Exact.{Roomy};
ghost use Rattle.answering.specs.Answer.{blank};
ghost use Rattle.shell.specs.Running.{Ran};

use answering::{answer, memory, printing};
use std::io;
use std::io::{Read, Write};

mod reading;

// The program runs in lent memory; nothing is printed before all of it is decided. It fails where not all was written.
fn ran<R: Read, W: Write>(
    input: &mut R,
    output: &mut W,
    tables: &mut [i32],
    code: &mut [u32],
    buffer: &mut [u8],
) -> io::Result<()>
    requires roomy { Roomy tables.old }
    requires code_value { code.old ≡ blank }
    requires room_in_bounds { room ≤ length buffer.old }
    ensures { Ran tables.old tables.new code.new buffer.new (is_ok result) }
{
    let heard = reading::heard(input, buffer, tables);
    let shown = answer::answer(heard, tables, code);
    printing::print(output, shown, code, buffer)
}

// The program runs in memory of its own. It fails where not all of its answer was written.
pub fn run<R: Read, W: Write>(input: &mut R, output: &mut W) -> io::Result<()> {
    let mut tables = intake::shape::empty_room();
    let mut code = memory::blank_code();
    let mut buffer = memory::empty_buffer();
    ran(input, output, &mut tables, &mut code, &mut buffer)
}

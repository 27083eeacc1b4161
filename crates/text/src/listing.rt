// The printed listing: the line of an instruction, the line of an answer, and what is said of a listing that is larger than is held.
ghost use Rattle.std.specs.Prelude.{◌+◌, ◌≤◌, ◌≡◌, [], ◌∷◌, ◌++◌, length};
ghost use Rattle.theory.specs.Rows.{placeless};
ghost use Rattle.cells.specs.Refusals.{code_refused};
ghost use Rattle.code.specs.Op.{decode};
ghost use Rattle.text.specs.Listing.{spaced, line_of};
ghost use Rattle.text.specs.Line.{room, Holds, Appended};
ghost use Rattle.text.specs.Said.{most_mnemonic, most_said, said_of, said_where};
ghost use Rattle.text.specs.Shipped.{bad_input, larger_listing, has_place, answer_line};

use crate::line::Line;
use cells::limits::Program;
use cells::refusals::Refusal;
use code::opcode::Opcode;
use theory::Answer;

// The line with a mnemonic and its arguments, where the unused word is 0; else the line as it was.
fn named(start: Line, mnemonic: &[u8], arguments: &[usize], unused: usize) -> Line
    requires mnemonic_len_bound { length mnemonic.now ≤ most_mnemonic }
    requires arguments_len_bound { length arguments.now ≤ 2 }
    requires most_said_bound { start.len + most_said ≤ room }
    ensures { Appended start result (said_where unused (mnemonic.now ++ spaced arguments.now)) }
{
    if unused != 0 {
        return start;
    }
    let mut line = start.word(mnemonic);
    for n in arguments {
        line = line.argument(*n);
    }
    line
}

// The line with the mnemonic and the arguments of the instruction that three words say; as it was where they say none.
fn said(start: Line, number: usize, first: usize, second: usize) -> Line
    requires { start.len + most_said ≤ room }
    ensures { Appended start result (said_of (decode number first second)) }
{
    match Opcode::try_from(number) {
        Ok(Opcode::Call) => named(start, b"call", &[first], second),
        Ok(Opcode::Schedule) => named(start, b"schedule", &[first], second),
        Ok(Opcode::If) => named(start, b"if", &[first, second], 0),
        Ok(Opcode::Jump) => named(start, b"jump", &[first], second),
        Ok(Opcode::Future) => named(start, b"future", &[first, second], 0),
        Ok(Opcode::Return) => named(start, b"return", &[], first.max(second)),
        Err(_) => start,
    }
}

// The line of the instruction that three words say at an address.
pub fn line(address: usize, number: usize, first: usize, second: usize) -> Line
    ensures { Holds result (line_of address (decode number first second)) }
{
    let start = Line::new().number(address).push(b' ');
    said(start, number, first, second).push(b'\n')
}

// Whether a number is one of 2 to 10, which have a place in the tables.
// The number is what an answer was told, so it is compared as a number.
fn has_place(number: usize) -> bool
    ensures { result ≡ has_place number }
{
    let fields = usize::from(Refusal::Fields);
    let whole = usize::from(Refusal::Whole);
    (fields <= number) & (number <= whole)
}

// The line of an answer: its number, and behind a number of 2 to 10 table and row.
pub fn answer_line(x: Answer) -> Line
    ensures { Holds result (answer_line x) }
{
    let mut line = Line::new().number(x.number);
    if has_place(x.number) {
        line = line.argument(x.outer).argument(x.inner);
    }
    line.push(b'\n')
}

// The line for a text that is no program: `bad input`.
pub fn bad_line() -> Line
    ensures { Holds result bad_input }
{
    Line::new().word(b"bad input\n")
}

// The lines for a listing that is larger than is held: the number 11, and `listing larger than 4096 instructions`.
pub fn larger_lines() -> Line
    ensures { Holds result (answer_line (placeless code_refused) ++ larger_listing) }
{
    let number = Line::new().number(usize::from(Refusal::Code));
    let most = number.word(b"\nlisting larger than ").number(Program::HELD);
    most.word(b" instructions\n")
}

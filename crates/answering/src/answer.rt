// What is to be printed of a text that was read: `bad input`, or the answer of compiling, and with 0 the listing, where it is held.
ghost use Rattle.std.specs.Prelude.{◌≡◌, ℤ};
ghost use Rattle.cells.specs.Refusals.{code_refused, number_of};
ghost use Rattle.program.specs.Tables.{tables_in};
ghost use Rattle.rules.specs.Shape.{InShape};
ghost use Rattle.intake.specs.Line.{fed};
ghost use Rattle.intake.specs.Heard.{tables_read, heard};
ghost use Rattle.text.specs.Shipped.{is_larger, printed};
ghost use Rattle.answering.specs.Answer.{blank, answered, compiled_of, answer_shown, text_of_answer};

use answers::Refused;
use cells::limits::Program;
use cells::refusals::Refusal;
use cells::tables::ProgramTables;
use intake::state::{Intake, Wrong};
use intake::tables;
use theory::Answer;

// What is to be printed.
#[derive(Clone, Copy)]
pub enum Shown {
    // The text is bad.
    Bad,
    // The listing is larger than is held: no part of it is shown.
    Larger,
    // The answer of compiling, and the listing's length, which is 0 where it refuses.
    Said { answer: Answer, length: usize },
}

// A refusal is that of a listing larger than is held: it is 11, and the listing is within the limit. The listing is counted.
fn is_larger(tables: &ProgramTables, refusal: Refusal) -> bool
    requires { number_of refusal ≡ code_refused → InShape tables.now }
    ensures { (start : ℤ) → result ≡ is_larger (tables_in tables.now start) (number_of refusal) }
{
    match refusal {
        Refusal::Code => !verdict_2_11::code_long(tables),
        _ => false,
    }
}

// The tables of a text that was read whole are compiled into a lent slice.
fn compiled(i: Intake, room: &[i32], program: Program, code: &mut [u32]) -> Shown
    ensures { answered result code.new ≡ compiled_of (tables_read (fed i room.now) program.start) code.old }
{
    let tables = tables::tables(i, room);
    match compiler::compile(&tables, program, code) {
        Ok(length) => Shown::Said {
            answer: answers::answer(Ok(())),
            length,
        },
        Err(refused) => {
            if is_larger(&tables, refused.refusal) {
                return Shown::Larger;
            }
            Shown::Said {
                answer: answers::answer(Err(refused)),
                length: 0,
            }
        }
    }
}

// Compiling's answer where the text is complete; else number 1 where a count was out of its limit, or that the text is bad.
pub fn answer(i: Intake, room: &[i32], code: &mut [u32]) -> Shown
    requires { code.old ≡ blank }
    ensures exact { answered result code.new ≡ answer_shown (heard (fed i room.now)) blank }
    ensures says { text_of_answer (answered result code.new) ≡ printed (heard (fed i room.now)) }
{
    match i.program() {
        Ok(program) => compiled(i, room, program, code),
        Err(Wrong::TooMany) => Shown::Said {
            answer: answers::answer(Err(Refused::from(Refusal::Shape))),
            length: 0,
        },
        Err(Wrong::Bad) => Shown::Bad,
    }
}

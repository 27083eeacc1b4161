// Number 13 of the joined schedule: a row that is wrong, or past the last that a part may have.
ghost use Rattle.std.specs.Prelude.{◌≡◌, ℤ};
ghost use Rattle.theory.specs.Verdict.{accepted_number, rows_answer};
ghost use Rattle.answers.specs.Answers.{answer_of};
ghost use Rattle.cells.specs.Refusals.{schedule_refused};
ghost use Rattle.program.specs.Tables.{tables_in};
ghost use Rattle.rules.specs.Shape.{InShape};
ghost use Rattle.rules.specs.Verdict.{program_verdict};
ghost use Rattle.code.specs.Compile.{CodeFits};
ghost use Rattle.layout.specs.Delays.{counted_delays};
ghost use Rattle.suppliers.specs.Schedule.{joined_tests};
ghost use Rattle.suppliers.specs.Delays.{joined_tests_in};

use crate::schedule_rows::Schedule;
use answers::Refused;
use cells::kinds::UNNAMED;
use cells::limits::Program;
use cells::refusals::Refusal;
use cells::tables;
use cells::tables::ProgramTables;
use layout::delays;

// The answer on the joined schedule, by the delays that are counted; of a program that 1 to 11 and 24 pass, by those of its listing.
pub fn answer(tables: &ProgramTables, rows: &[i32]) -> Result<(), Refused>
    requires { InShape tables.now }
    ensures counted { (start : ℤ) → let T = tables_in tables.now start in
        answer_of result ≡ rows_answer schedule_refused (joined_tests_in T (counted_delays T) rows.now) }
    ensures listed { (start : ℤ) → let T = tables_in tables.now start in
        program_verdict T ≡ accepted_number → CodeFits T
        → answer_of result ≡ rows_answer schedule_refused (joined_tests T rows.now) }
{
    // Both calls of this crate begin so: the delays stay in a call's own memory, and 16 KB are not handed back by value.
    let mut marks = [UNNAMED as u8; Program::CODE];
    let mut ticks = [0usize; Program::MODES];
    delays::fill(tables, &mut marks, &mut ticks);
    let schedule = Schedule {
        tasks: tables.tasks,
        marks: &marks,
        ticks: &ticks,
        rows,
    };
    let wrong = schedule.first_wrong_joined();
    answers::refused_at(wrong, Refusal::Schedule, tables::SCHEDULE)
}

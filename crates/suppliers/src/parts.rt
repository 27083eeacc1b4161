// Number 13 of one supplier's part: the delays of its program are counted by address, and the rows held against them.
ghost use Rattle.std.specs.Prelude.{◌≡◌, [], ◌∷◌, leb, ℤ};
ghost use Rattle.theory.specs.Rows.{testing};
ghost use Rattle.theory.specs.Verdict.{accepted_number, rows_answer};
ghost use Rattle.cells.specs.Limits.{suppliers};
ghost use Rattle.answers.specs.Answers.{answer_of};
ghost use Rattle.cells.specs.Refusals.{schedule_refused};
ghost use Rattle.program.specs.Tables.{tables_in, supplier_at};
ghost use Rattle.rules.specs.Shape.{InShape};
ghost use Rattle.rules.specs.Verdict.{program_verdict};
ghost use Rattle.code.specs.Compile.{CodeFits};
ghost use Rattle.layout.specs.Delays.{counted_delays};
ghost use Rattle.suppliers.specs.Schedule.{part_tests};
ghost use Rattle.suppliers.specs.Delays.{part_tests_in};

use crate::schedule_rows::Schedule;
use answers::Refused;
use cells::kinds::UNNAMED;
use cells::limits::Program;
use cells::refusals::Refusal;
use cells::tables;
use cells::tables::ProgramTables;
use layout::delays;

// The answer on a supplier where no row of its part is refused: refused as no supplier at all, or accepted.
fn asked(supplier: usize) -> Result<(), Refused>
    ensures { answer_of result ≡ rows_answer schedule_refused (testing supplier_at 1 (λ k. leb suppliers supplier) ∷ []) }
{
    if Program::SUPPLIERS <= supplier {
        return Err(Refused {
            refusal: Refusal::Schedule,
            outer: tables::SUPPLIER,
            inner: 0,
        });
    }
    Ok(())
}

// The answer on the part of one supplier, by the delays that are counted; of a program that 1 to 11 and 24 pass, by those of its listing.
pub fn answer(tables: &ProgramTables, rows: &[i32], supplier: usize) -> Result<(), Refused>
    requires { InShape tables.now }
    ensures counted { (start : ℤ) → let T = tables_in tables.now start in
        answer_of result ≡ rows_answer schedule_refused (part_tests_in T (counted_delays T) rows.now supplier) }
    ensures listed { (start : ℤ) → let T = tables_in tables.now start in
        program_verdict T ≡ accepted_number → CodeFits T
        → answer_of result ≡ rows_answer schedule_refused (part_tests T rows.now supplier) }
{
    // Both calls of this crate begin so: the delays stay in a call's own memory, and 16 KB are not handed back by value.
    let mut marks = [UNNAMED as u8; Program::CODE];
    let mut ticks = [0usize; Program::MODES];
    delays::fill(tables, &mut marks, &mut ticks);
    let schedule = Schedule {
        tasks: tables.tasks,
        marks: &marks,
        ticks: &ticks,
        rows,
    };
    let wrong = schedule.first_wrong_in_part(supplier);
    answers::refused_at(wrong, Refusal::Schedule, tables::SCHEDULE)?;
    asked(supplier)
}

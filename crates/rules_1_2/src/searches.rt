// Number 2 over whole tables: the lowest bad row of the first table that has one; then the start mode.
ghost use Rattle.std.specs.Prelude.{◌≡◌, ◌<◌, ◌≤◌, ℕ, ℤ, Bool, [], ◌∷◌};
ghost use Rattle.theory.specs.Search.{Tests, lowest_passing};
ghost use Rattle.theory.specs.Rows.{testing};
ghost use Rattle.theory.specs.Verdict.{rows_answer};
ghost use Rattle.cells.specs.Refusals.{fields_refused};
ghost use Rattle.answers.specs.Answers.{answer_of};
ghost use Rattle.program.specs.Tables.{tables_in, rows_at};
ghost use Rattle.rules.specs.Shape.{InShape};
ghost use Rattle.rules.specs.Fields.{field_tests};
ghost use Rattle.rules_1_2.specs.Rows.{row_bad};

use crate::ranges;
use answers::Refused;
use cells::kinds::{Driver, Kind, Mode, Port, Task};
use cells::limits::Program;
use cells::refusals::Refusal;
use cells::tables;
use cells::tables::ProgramTables;
use program::rows;
use theory::scan;

// A row of the table at a place is bad.
fn row_bad(tables: &ProgramTables, place: usize, row: usize) -> bool
    requires in_shape { InShape tables.now }
    requires row_bound { (start : ℤ) → row < rows_at (tables_in tables.now start) place }
    ensures { (start : ℤ) → result ≡ row_bad (tables_in tables.now start) place row }
{
    // A match on the place of a table: `first_bad` is asked by it.
    match place {
        tables::PORTS => ranges::port_bad(tables.ports, Port::of(row)),
        tables::TASKS => ranges::task_bad(tables.tasks, Task::of(row)),
        tables::TASK_PORTS => ranges::task_port_bad(tables, row),
        tables::DRIVERS => ranges::driver_bad(tables, Driver::of(row)),
        tables::COPIES => ranges::copy_bad(tables, row),
        tables::MODES => ranges::mode_bad(tables.modes, Mode::of(row)),
        tables::MODE_PORTS => ranges::mode_port_bad(tables, row),
        tables::INVOCATIONS => ranges::invocation_bad(tables, row),
        tables::UPDATES => ranges::update_bad(tables, row),
        tables::SWITCHES => ranges::switch_bad(tables, row),
        _ => false,
    }
}

// The lowest bad row among the first n rows of the table at a place, if there is one.
pub fn first_bad(tables: &ProgramTables, place: usize, n: usize) -> Option<usize>
    requires in_shape { InShape tables.now }
    requires n_bound { (start : ℤ) → n ≤ rows_at (tables_in tables.now start) place }
    ensures { (start : ℤ) → result ≡ lowest_passing (row_bad (tables_in tables.now start) place) n }
{
    // A loop of its own: what a search is lent is proved of any row, and `row_bad` asks that the row is of the table.
    for row in 0..n {
        if row_bad(tables, place, row) {
            return Some(row);
        }
    }
    None
}

// Refused at the lowest bad row of a table, if it has one.
fn all_good<F: Fn(usize) -> bool>(
    tables: &ProgramTables,
    table: usize,
    bad: F,
) -> Result<(), Refused>
    requires { (start : ℤ) (k : ℕ) → k < rows_at (tables_in tables.now start) table → F.pre bad k }
    ensures { (start : ℤ) → let n = rows_at (tables_in tables.now start) table in
        (p : ℕ → Bool) → Tests (F.post bad) n p → answer_of result ≡ rows_answer fields_refused (testing table n p ∷ []) }
{
    let row = scan::first(rows::count(tables, table), bad);
    answers::refused_at(row, Refusal::Fields, table)
}

// Number 2: the lowest row of the first table that has a field out of range or one that names nothing, or the start mode, as row 0 of a
// place of its own.
pub fn bad_field(tables: &ProgramTables, program: Program) -> Result<(), Refused>
    requires { InShape tables.now }
    ensures { answer_of result ≡ rows_answer fields_refused (field_tests (tables_in tables.now program.start)) }
{
    all_good(
        tables,
        tables::PORTS,
        |p| ranges::port_bad(tables.ports, Port::of(p)),
    )?;
    all_good(
        tables,
        tables::TASKS,
        |t| ranges::task_bad(tables.tasks, Task::of(t)),
    )?;
    all_good(
        tables,
        tables::TASK_PORTS,
        |k| ranges::task_port_bad(tables, k),
    )?;
    all_good(
        tables,
        tables::DRIVERS,
        |d| ranges::driver_bad(tables, Driver::of(d)),
    )?;
    all_good(tables, tables::COPIES, |c| ranges::copy_bad(tables, c))?;
    all_good(
        tables,
        tables::MODES,
        |m| ranges::mode_bad(tables.modes, Mode::of(m)),
    )?;
    all_good(
        tables,
        tables::MODE_PORTS,
        |k| ranges::mode_port_bad(tables, k),
    )?;
    all_good(
        tables,
        tables::INVOCATIONS,
        |i| ranges::invocation_bad(tables, i),
    )?;
    all_good(tables, tables::UPDATES, |i| ranges::update_bad(tables, i))?;
    all_good(tables, tables::SWITCHES, |i| ranges::switch_bad(tables, i))?;
    let start = ranges::start_bad(tables.modes, program).then_some(0);
    answers::refused_at(start, Refusal::Fields, tables::START)
}

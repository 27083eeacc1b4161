// The calls on windows and on a supplier's schedule code: numbers 1 to 15 of document 01, the first that applies, with its place.
#![tactic(auto)]

ghost use Rattle.std.specs.Prelude.{◌≡◌, ℤ};
ghost use Rattle.answers.specs.Answers.{answer_of};
ghost use Rattle.program.specs.Tables.{tables_in};
ghost use Rattle.rules.specs.Shape.{InShape};
ghost use Rattle.suppliers.specs.Windows.{windows_shape_bad, windows_answer};
ghost use Rattle.suppliers.specs.Supplier.{supplier_verdict};
ghost use Rattle.acceptance.specs.Judged.{windowed, asked, shaped_answer};

use answers::Refused;
use cells::columns::{schedule, window};
use cells::limits::Program;
use cells::refusals::Refusal;
use cells::tables::ProgramTables;
use cells::{table, tables};
use layout::counts;
use rounds::every_mode;
use rules_1_2::slices;
use suppliers::{parts, window_rows};

// Number 1 applies to the tables or the windows, whatever the start mode.
#[tactic(auto, unfolding(suppliers::specs::Windows::windows_shape_bad))]
fn shape_bad(tables: &ProgramTables, windows: &[i32]) -> bool
    ensures { (start : ℤ) → let T = tables_in tables.now start in
        result ≡ windows_shape_bad (windowed T windows.now) }
{
    slices::shape_bad(tables) | slices::bad_slice(windows, window::WIDTH, Program::WINDOWS)
}

// The first of numbers 2 to 12 that applies to tables and windows that have their shape, with its place; accepted where none does.
fn shaped_verdict(tables: &ProgramTables, program: Program, windows: &[i32]) -> Result<(), Refused>
    requires { InShape tables.now }
    ensures { answer_of result ≡ shaped_answer (windowed (tables_in tables.now program.start) windows.now) }
{
    verdict_2_11::tables_and_code(tables, program)?;
    let window = window_rows::first_wrong_window(tables.modes, windows);
    answers::refused_at(window, Refusal::Windows, tables::WINDOWS)
}

// The windows verdict: the first of numbers 1 to 12 and 24 that applies, with its place, or accepted. Any slices at all may be lent.
pub fn windows_verdict(
    tables: &ProgramTables,
    program: Program,
    windows: &[i32],
) -> Result<(), Refused>
    ensures { answer_of result ≡ windows_answer (windowed (tables_in tables.now program.start) windows.now) }
{
    answers::refused_where(shape_bad(tables, windows), Refusal::Shape)?;
    shaped_verdict(tables, program, windows)
}

// The verdict on a supplier's part of the schedule, 1 to 15 with its place. Any slices and any number may be lent.
pub fn supplier_verdict(
    tables: &ProgramTables,
    program: Program,
    windows: &[i32],
    part: &[i32],
    supplier: i32,
) -> Result<(), Refused>
    ensures { answer_of result ≡ supplier_verdict (asked (tables_in tables.now program.start) windows.now
        part.now supplier) }
{
    let bad = shape_bad(tables, windows) | slices::bad_slice(part, schedule::WIDTH, Program::PART);
    answers::refused_where(bad, Refusal::Shape)?;
    shaped_verdict(tables, program, windows)?;
    let own = table::index(supplier);
    parts::answer(tables, part, own)?;
    let sensors = counts::sensors(tables.ports);
    every_mode::answer(tables, windows, part, sensors, own)
}

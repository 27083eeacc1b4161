// Numbers 1 to 11, 24, 13 and 21 of an advance, with their places: what is asked before anything runs.
ghost use Rattle.std.specs.Prelude.{◌≡◌, ℤ};
ghost use Rattle.answers.specs.Answers.{answer_of};
ghost use Rattle.cells.specs.Limits.{max_code, words_each};
ghost use Rattle.program.specs.Tables.{tables_in};
ghost use Rattle.rules.specs.Shape.{bad_slice};
ghost use Rattle.machine.specs.declared.State.{State};
ghost use Rattle.machine.specs.Advance.{advance_shape_bad};
ghost use Rattle.operation.specs.Advancing.{lent_of, advancing, judged_answer};

use answers::Refused;
use cells::columns::schedule;
use cells::limits::Program;
use cells::refusals::Refusal;
use cells::tables::ProgramTables;
use machine::State;
use rules_1_2::slices;
use suppliers::joined;
use ticking::range;

// The E code is not whole instructions, or has more of them than the limit.
fn bad_code(code: &[u32]) -> bool
    ensures { result ≡ bad_slice words_each max_code code.now }
{
    let whole = code.len() % Program::WORDS == 0;
    !whole | (Program::CODE < code.len() / Program::WORDS)
}

// Some slice that is lent breaks number 1, whatever the start mode and the state.
fn shape_bad(
    tables: &ProgramTables,
    code: &[u32],
    schedule: &[i32],
    readings: &[i32],
    results: &[i32],
    times: &[i32],
) -> bool
    ensures { (start : ℤ) (s : State) → let X = lent_of readings.now results.now times.now in
        let T = tables_in tables.now start in
        result ≡ advance_shape_bad (advancing T code.now schedule.now s X) }
{
    slices::shape_bad(tables)
        | bad_code(code)
        | slices::bad_slice(schedule, schedule::WIDTH, Program::SCHEDULE)
        | (readings.len() != Program::PORTS)
        | (results.len() != Program::PORTS)
        | (times.len() != Program::TASKS)
}

// The first of numbers 1 to 11, 24, 13 and 21 that applies to an advance, with its place; accepted where none does.
pub fn answer(
    tables: &ProgramTables,
    program: Program,
    code: &[u32],
    schedule: &[i32],
    s: State,
    readings: &[i32],
    results: &[i32],
    times: &[i32],
) -> Result<(), Refused>
    ensures { let X = lent_of readings.now results.now times.now in
        let T = tables_in tables.now program.start in
        answer_of result ≡ judged_answer (advancing T code.now schedule.now s X) }
{
    let bad = shape_bad(tables, code, schedule, readings, results, times);
    answers::refused_where(bad, Refusal::Shape)?;
    verdict_2_11::tables_and_code(tables, program)?;
    joined::answer(tables, schedule)?;
    let instructions = code.len() / Program::WORDS;
    let rows = schedule.len() / schedule::WIDTH;
    answers::refused_where(range::out_of_range(instructions, rows, s), Refusal::State)
}

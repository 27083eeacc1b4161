// The calls on the machine: a fresh state, and an advance of one tick. A refusal hands the state back as it was.
#![tactic(auto)]

ghost use Rattle.std.specs.Prelude.{◌≡◌, ◌<◌, ◌≤◌, ◌/◌, ℤ, length};
ghost use Rattle.cells.specs.Limits.{words_each, max_code, max_elapsed};
ghost use Rattle.program.specs.Tables.{tables_in};
ghost use Rattle.program.specs.Program.{program_of};
ghost use Rattle.rules.specs.Shape.{InShape};
ghost use Rattle.code.specs.Op.{instructions};
ghost use Rattle.suppliers.specs.Schedule.{Rows};
ghost use Rattle.machine.specs.Advance.{state_of, ready, step, answer, handed, fresh_answer, advance_answer};
ghost use Rattle.machine.specs.Told.{advanced_of};
ghost use Rattle.operation.specs.Advancing.{lent_of, advancing};

use answers::Refused;
use cells::limits::Program;
use cells::refusals::Refusal;
use cells::tables::ProgramTables;
use machine::{Handed, State};
use ticking::{schedules, values};

mod judged;

// A state with these values in its ports and local outputs, and 0 elsewhere.
fn begun(values: [i32; Program::PORTS]) -> State
    ensures { result ≡ state_of values }
{
    State {
        ports: values,
        outputs: values,
        time: 0,
        pending: 0,
        current: 0,
        elapsed: 0,
        remaining: 0,
        left: [0; Program::TASKS],
        positions: [0; Program::SUPPLIERS],
    }
}

// The fresh state of an accepted program; all 0 where the program is refused. Any slices at all may be lent.
pub fn fresh(tables: &ProgramTables, program: Program) -> Handed
    ensures { result ≡ fresh_answer (tables_in tables.now program.start) }
{
    match verdict::program_verdict(tables, program) {
        Ok(()) => Handed {
            answer: answers::answer(Ok(())),
            state: begun(values::first_values(tables.ports)),
        },
        Err(refused) => Handed {
            answer: answers::answer(Err(refused)),
            state: begun([0; Program::PORTS]),
        },
    }
}

// The E part of an advance: the E code runs if no tick of the unit remains.
fn ready(
    tables: &ProgramTables,
    code: &[u32],
    readings: &[i32],
    times: &[i32],
    s: State,
) -> Result<State, Refusal>
    requires { InShape tables.now }
    ensures { (start : ℤ) → let P = program_of (tables_in tables.now start) in
        advanced_of s result ≡ answer s (ready P (instructions code.now) readings.now times.now s) }
{
    if 0 < s.remaining {
        return Ok(s);
    }
    instants::instant(tables, code, readings, times, s)
}

// The step of an advance: the E code if no tick of the unit remains, then one tick of the schedules.
fn step(
    tables: &ProgramTables,
    code: &[u32],
    schedule: &[i32],
    s: State,
    readings: &[i32],
    results: &[i32],
    times: &[i32],
) -> Result<State, Refusal>
    requires in_shape { InShape tables.now }
    requires words_each_len_bound { length code.now / words_each ≤ max_code }
    requires current_in_bounds { s.current < length code.now / words_each }
    requires elapsed_le_max_elapsed { s.elapsed ≤ max_elapsed }
    ensures { (start : ℤ) → let X = lent_of readings.now results.now times.now in
        let T = tables_in tables.now start in
        Rows T schedule.now
        → advanced_of s result ≡ answer s (step (program_of T) (instructions code.now) schedule.now X s) }
{
    let begun = ready(tables, code, readings, times, s)?;
    schedules::tick_all(tables, schedule, results, begun)
}

// What is handed back after a step of the state s: the state after it, or its refusal, which has no place, and s as it was.
fn handed(after: Result<State, Refusal>, s: State) -> Handed
    ensures { result ≡ handed (advanced_of s after) }
{
    match after {
        Ok(state) => Handed {
            answer: answers::answer(Ok(())),
            state,
        },
        Err(refusal) => Handed {
            answer: answers::answer(Err(Refused::from(refusal))),
            state: s,
        },
    }
}

// An advance of the machine by one tick. Any slices, any words and any state at all may be lent.
pub fn advance(
    tables: &ProgramTables,
    program: Program,
    code: &[u32],
    schedule: &[i32],
    s: State,
    readings: &[i32],
    results: &[i32],
    times: &[i32],
) -> Handed
    ensures { let X = lent_of readings.now results.now times.now in
        let T = tables_in tables.now program.start in
        result ≡ advance_answer (advancing T code.now schedule.now s X) }
{
    match judged::answer(tables, program, code, schedule, s, readings, results, times) {
        Ok(()) => handed(step(tables, code, schedule, s, readings, results, times), s),
        Err(refused) => Handed {
            answer: answers::answer(Err(refused)),
            state: s,
        },
    }
}

// One instruction of E code: faulty, a bad time or an overrun, in that order, or the machine after it.
ghost use Rattle.std.specs.Prelude.{◌≡◌, List, ℕ, suc, ◌≤◌, ◌<◌, ℤ};
ghost use Rattle.cells.specs.Cell.{rows_in};
ghost use Rattle.cells.specs.Limits.{max_tasks, max_drivers};
ghost use Rattle.program.specs.Tables.{Tables, tables_in, task_width, driver_width};
ghost use Rattle.program.specs.Program.{program_of};
ghost use Rattle.rules.specs.Shape.{InShape};
ghost use Rattle.code.specs.Op.{call_number, schedule_number, if_number, jump_number, future_number, return_number, instructions, decode};
ghost use Rattle.instants.specs.declared.instructions.Stepping.TheVariants.{On};
ghost use Rattle.instants.specs.Step.{address_end, stepped, stepped_of, step_at};

use crate::calls;
use cells::kinds::{Driver, Kind, Task};
use cells::limits::Program;
use cells::refusals::Refusal;
use cells::tables::ProgramTables;
use cells::{drivers, table, tasks};
use code::opcode::Opcode;
use machine::{At, State};
use program::guard;

// The machine after an instruction: it goes on, or the instruction was the `return`.
#[derive(Clone, Copy)]
pub enum Stepping {
    On(At),
    Over(At),
}

// The machine goes on to the next address, with this state.
fn moved(at: At, state: State) -> Stepping
    requires { at.address < address_end }
    ensures { result ≡ On (record { address = suc at.address; planned = at.planned; state = state }) }
{
    Stepping::On(At {
        address: at.address + 1,
        planned: at.planned,
        state,
    })
}

// The instruction `call n`: the call of this number is made.
fn call(
    tables: &ProgramTables,
    readings: &[i32],
    n: usize,
    unused: usize,
    at: At,
) -> Result<Stepping, Refusal>
    requires in_shape { InShape tables.now }
    requires address_lt_address_end { at.address < address_end }
    ensures { (start : ℤ) (times : List ℤ) (count : ℕ) → let P = program_of (tables_in tables.now start) in
        stepped_of at result ≡ stepped P readings.now times count (decode call_number n unused) at }
{
    if 0 < unused {
        return Err(Refusal::Faulty);
    }
    let state = calls::call(tables, readings, n, at.state)?;
    Ok(moved(at, state))
}

// The instruction `schedule task`: the task of number t is released with the time lent for it.
fn schedule(
    tasks: &[i32],
    times: &[i32],
    t: usize,
    unused: usize,
    at: At,
) -> Result<Stepping, Refusal>
    requires tasks_bound { rows_in task_width tasks.now ≤ max_tasks }
    requires address_lt_address_end { at.address < address_end }
    ensures { (T : Tables) → T.tasks ≡ tasks.now → (readings : List ℤ) (count : ℕ)
        → stepped_of at result ≡ stepped (program_of T) readings times.now count (decode schedule_number t unused) at }
{
    let own = Task::of(t);
    if (0 < unused) | !tasks::declared(tasks, own) {
        return Err(Refusal::Faulty);
    }
    let time = tasks::time(times, own);
    let worst = tasks::worst(tasks, own);
    let in_range = (1 <= time) & (time <= worst);
    if !in_range {
        return Err(Refusal::Time);
    }
    let mut state = at.state;
    let mut left = state.left;
    if 0 < tasks::left(&left, own) {
        return Err(Refusal::Overrun);
    }
    tasks::put_left(&mut left, own, time);
    state.left = left;
    Ok(moved(at, state))
}

// The instruction `if driver address`: the machine goes on at the address where the guard of the driver of number d holds.
fn branch(drivers: &[i32], count: usize, d: usize, to: usize, at: At) -> Result<Stepping, Refusal>
    requires drivers_bound { rows_in driver_width drivers.now ≤ max_drivers }
    requires address_lt_address_end { at.address < address_end }
    ensures { (T : Tables) → T.drivers ≡ drivers.now → (readings times : List ℤ)
        → stepped_of at result ≡ stepped (program_of T) readings times count (decode if_number d to) at }
{
    let own = Driver::of(d);
    if !drivers::declared(drivers, own) | (count <= to) {
        return Err(Refusal::Faulty);
    }
    let state = at.state;
    if guard::guard_holds(drivers, own, &state.ports) {
        return jump(count, to, 0, at);
    }
    Ok(moved(at, state))
}

// The instruction `jump address`: the machine goes on at the address.
fn jump(count: usize, to: usize, unused: usize, at: At) -> Result<Stepping, Refusal>
    ensures { (T : Tables) (readings times : List ℤ)
        → stepped_of at result ≡ stepped (program_of T) readings times count (decode jump_number to unused) at }
{
    if (0 < unused) | (count <= to) {
        return Err(Refusal::Faulty);
    }
    let mut next = at;
    next.address = to;
    Ok(Stepping::On(next))
}

// The instruction `future delay address`: a block begins here, and all suppliers are at its start.
fn future(count: usize, delay: usize, to: usize, at: At) -> Result<Stepping, Refusal>
    requires { at.address < address_end }
    ensures { (T : Tables) (readings times : List ℤ)
        → stepped_of at result ≡ stepped (program_of T) readings times count (decode future_number delay to) at }
{
    let in_range = (1 <= delay) & (delay <= Program::DELAY);
    if at.planned | !in_range | (count <= to) {
        return Err(Refusal::Faulty);
    }
    let mut state = at.state;
    state.pending = to;
    state.current = at.address;
    state.elapsed = 0;
    state.remaining = delay;
    state.positions = [0; Program::SUPPLIERS];
    Ok(Stepping::On(At {
        address: at.address + 1,
        planned: true,
        state,
    }))
}

// The instruction `return`: the instant is over, if a `future` was executed in it.
fn finish(first: usize, second: usize, at: At) -> Result<Stepping, Refusal>
    ensures { (T : Tables) (readings times : List ℤ) (count : ℕ)
        → stepped_of at result ≡ stepped (program_of T) readings times count (decode return_number first second) at }
{
    if (0 < first) | (0 < second) | !at.planned {
        return Err(Refusal::Faulty);
    }
    Ok(Stepping::Over(at))
}

// The instruction at the machine's address is executed, by its number; past the end of the code stands none.
pub fn step(
    tables: &ProgramTables,
    code: &[u32],
    readings: &[i32],
    times: &[i32],
    at: At,
) -> Result<Stepping, Refusal>
    requires { InShape tables.now }
    ensures { (start : ℤ) → let P = program_of (tables_in tables.now start) in
        stepped_of at result ≡ step_at P readings.now times.now (instructions code.now) at }
{
    let count = code.len() / Program::WORDS;
    if count <= at.address {
        return Err(Refusal::Faulty);
    }
    let place = at.address * Program::WORDS;
    let number = table::word(code, place);
    let first = table::word(code, place + 1);
    let second = table::word(code, place + 2);
    match Opcode::try_from(number) {
        Ok(Opcode::Call) => call(tables, readings, first, second, at),
        Ok(Opcode::Schedule) => schedule(tables.tasks, times, first, second, at),
        Ok(Opcode::If) => branch(tables.drivers, count, first, second, at),
        Ok(Opcode::Jump) => jump(count, first, second, at),
        Ok(Opcode::Future) => future(count, first, second, at),
        Ok(Opcode::Return) => finish(first, second, at),
        Err(_) => Err(Refusal::Faulty),
    }
}

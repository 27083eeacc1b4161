// One tick of all suppliers' schedules: who runs, number 18, and the state after the tick.
ghost use Rattle.std.specs.Prelude.{◌≡◌, ◌≤◌};
ghost use Rattle.cells.specs.Cell.{greatest_word};
ghost use Rattle.cells.specs.Limits.{max_elapsed};
ghost use Rattle.program.specs.Tables.{Tables};
ghost use Rattle.program.specs.Program.{program_of};
ghost use Rattle.runs.specs.Schedule.{Sorted};
ghost use Rattle.suppliers.specs.Schedule.{Rows};
ghost use Rattle.machine.specs.Schedules.{shares_of, tick_passed, tick_all};
ghost use Rattle.ticking.specs.Joined.{join_told, outputs_by};
ghost use Rattle.machine.specs.Advance.{answer};
ghost use Rattle.machine.specs.Told.{advanced_of};

use crate::values;
use cells::kinds::Task;
use cells::limits::Program;
use cells::refusals::Refusal;
use cells::tables::ProgramTables;
use cells::tasks;
use machine::{Running, Shares, State};
use runs::{block, turn};

// Who runs in a tick, of the suppliers before and the one of whose tasks this runs, if one does.
fn join(before: Running, job: Option<Task>) -> Running
    ensures { result ≡ join_told before job }
{
    match (before, job) {
        (_, None) => before,
        (Running::Nobody, Some(own)) => Running::One(own),
        (_, Some(_)) => Running::Several,
    }
}

// Who runs in a tick and the positions after it: each supplier has its turn on its block, sought behind the one before.
fn turns(rows: &[i32], s: State) -> Shares
    requires { s.current ≤ greatest_word }
    ensures { Sorted rows.now → result ≡ shares_of rows.now s }
{
    let left = s.left;
    let mut positions = s.positions;
    let mut running = Running::Nobody;
    let mut from = 0;
    for j in 0..Program::SUPPLIERS {
        let at = block::find(rows, from, j, s.current);
        let turn = turn::tick(block::rows_at(rows, at), s.elapsed, left, positions[j]);
        running = join(running, turn.job);
        positions[j] = turn.position;
        from = at.end;
    }
    Shares { running, positions }
}

// The local outputs after a tick of task t, which take its results where it completes.
fn outputs_after(
    tables: &ProgramTables,
    results: &[i32],
    s: State,
    t: Task,
) -> [i32; Program::PORTS]
    ensures { (T : Tables) → T.ports ≡ tables.now.ports.now → T.task_ports ≡ tables.now.task_ports.now
        → result ≡ outputs_by T results.now s t.0 }
{
    let left = s.left;
    let outputs = s.outputs;
    if tasks::left(&left, t) == 1 {
        return values::gives_taken(tables, t, results, outputs);
    }
    outputs
}

// The state after a tick that leaves these remaining times, outputs and positions; after the last time stamp comes 0.
fn tick_passed(
    s: State,
    left: [usize; Program::TASKS],
    outputs: [i32; Program::PORTS],
    positions: [usize; Program::SUPPLIERS],
) -> State
    requires { s.elapsed ≤ max_elapsed }
    ensures { result ≡ tick_passed s left outputs positions }
{
    let mut next = s;
    next.outputs = outputs;
    next.time = std::num::wrapping_add_u32(s.time, 1);
    next.elapsed = s.elapsed + 1;
    if 0 < s.remaining {
        next.remaining = s.remaining - 1;
    }
    next.left = left;
    next.positions = positions;
    next
}

// One tick of all suppliers: the state after it, or the refusal that two run.
pub fn tick_all(
    tables: &ProgramTables,
    rows: &[i32],
    results: &[i32],
    s: State,
) -> Result<State, Refusal>
    requires current_le_greatest_word { s.current ≤ greatest_word }
    requires elapsed_le_max_elapsed { s.elapsed ≤ max_elapsed }
    ensures { (T : Tables) → T.ports ≡ tables.now.ports.now → T.task_ports ≡ tables.now.task_ports.now
        → Rows T rows.now → advanced_of s result ≡ answer s (tick_all (program_of T) rows.now results.now s) }
{
    let Shares { running, positions } = turns(rows, s);
    match running {
        Running::Nobody => Ok(tick_passed(s, s.left, s.outputs, positions)),
        Running::One(job) => {
            let left = turn::after(Some(job), s.left);
            let outputs = outputs_after(tables, results, s, job);
            Ok(tick_passed(s, left, outputs, positions))
        }
        Running::Several => Err(Refusal::Collision),
    }
}

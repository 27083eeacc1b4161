// Number 21: what a state that is handed in may not hold.
ghost use Rattle.std.specs.Prelude.{◌≡◌, nat_lt, slice_index};
ghost use Rattle.theory.specs.Search.{any};
ghost use Rattle.cells.specs.Limits.{suppliers, max_tasks, max_left};
ghost use Rattle.runs.specs.Tick.{left_of};
ghost use Rattle.machine.specs.Advance.{state_out};

use cells::kinds::{Kind, Task};
use cells::limits::Program;
use cells::tasks;
use machine::State;
use theory::scan;

// Some task's remaining time exceeds the limit.
fn some_long(left: [usize; Program::TASKS]) -> bool
    ensures { result ≡ any (λ t. nat_lt max_left (left_of left t)) max_tasks }
{
    scan::any(Program::TASKS, |t| {
        Program::LEFT < tasks::left(&left, Task::of(t))
    })
}

// Some supplier's position is past the rows of the schedule.
fn some_far(positions: [usize; Program::SUPPLIERS], rows: usize) -> bool
    ensures { result ≡ any (λ j. nat_lt rows (slice_index positions j)) suppliers }
{
    scan::any(Program::SUPPLIERS, |j| rows < positions[j])
}

// The state breaks number 21, where the code has so many instructions and the schedule so many rows.
pub fn out_of_range(instructions: usize, rows: usize, s: State) -> bool
    ensures { result ≡ state_out instructions rows s }
{
    let addresses = (instructions <= s.pending) | (instructions <= s.current);
    let ticks = (Program::ELAPSED < s.elapsed) | (Program::REMAINING < s.remaining);
    let left = s.left;
    let positions = s.positions;
    addresses | ticks | some_long(left) | some_far(positions, rows)
}

// What one supplier does in one mode, and its tasks that are due at a unit: released with their worst-case times, or to have ended.
ghost use Rattle.std.specs.Prelude.{◌≡◌, ◌<◌};
ghost use Rattle.cells.specs.Cell.{field_at};
ghost use Rattle.program.specs.Tables.{task_width, task_worst_column};
ghost use Rattle.program.specs.Program.{next_of};
ghost use Rattle.runs.specs.Round.{release, unfinished};
ghost use Rattle.rounds.specs.Course.{own_due, own_rows};

use cells::columns::invocation;
use cells::kinds::{Mode, Task};
use cells::limits::Program;
use cells::{table, tasks};
use program::due;
use theory::scan;

// A supplier in a mode, which has so many units of so many ticks, with the tables that say what it does there.
#[derive(Clone, Copy)]
pub struct Course<'a> {
    pub tasks: &'a [i32],
    pub invocations: &'a [i32],
    pub windows: &'a [i32],
    pub supplier: usize,
    pub mode: Mode,
    pub units: usize,
    pub ticks: usize,
}

// The unit after unit k of a round of u units; unit 0 comes after the last.
pub fn next_of(u: usize, k: usize) -> usize
    requires { k < u }
    ensures { result ≡ next_of u k }
{
    if k + 1 == u {
        return 0;
    }
    k + 1
}

impl Course<'_> {
    // Invocation i is due at unit k, and its task is one of the supplier.
    #[tactic(auto, unfolding(crate::specs::Course::own_due))]
    fn own_due(self, k: usize, i: usize) -> bool
        ensures { let c = self.entry in
            result ≡ own_due c.tasks.now c.invocations.now c.supplier c.mode.0 c.units k i }
    {
        let task: Task = table::named(self.invocations, invocation::WIDTH, i, invocation::TASK);
        let owner = tasks::owner(self.tasks, task);
        due::row_due(
            self.invocations,
            invocation::WIDTH,
            self.mode,
            self.units,
            k,
            i,
        ) & (owner == self.supplier)
    }

    // The remaining times after the supplier's tasks that are due at unit k are released with their worst-case times.
    pub fn released(self, k: usize, mut left: [usize; Program::TASKS]) -> [usize; Program::TASKS]
        ensures { let c = self.entry in
            result ≡ release (own_rows c.tasks.now c.invocations.now c.supplier c.mode.0 c.units k)
            (field_at task_width task_worst_column c.tasks.now) left }
    {
        for i in 0..self.invocations.len() / invocation::WIDTH {
            if self.own_due(k, i) {
                let own: Task = table::named(
                    self.invocations,
                    invocation::WIDTH,
                    i,
                    invocation::TASK,
                );
                tasks::put_left(&mut left, own, tasks::worst(self.tasks, own));
            }
        }
        left
    }

    // Some task of the supplier that is due at unit k has not ended.
    pub fn unended(self, k: usize, left: &[usize]) -> bool
        ensures { let c = self.entry in
            result ≡ unfinished (own_rows c.tasks.now c.invocations.now c.supplier c.mode.0 c.units k) left.now }
    {
        scan::any(self.invocations.len() / invocation::WIDTH, |i| {
            let own: Task = table::named(self.invocations, invocation::WIDTH, i, invocation::TASK);
            self.own_due(k, i) & (1 <= tasks::left(left, own))
        })
    }
}

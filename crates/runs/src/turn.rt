// One tick of one supplier's block, for the verdict and for the machine alike.
ghost use Rattle.std.specs.Prelude.{◌≡◌, ◌+◌, drop};
ghost use Rattle.runs.specs.Tick.{skipped, passed, act, turn_of, turn, after_turn};
ghost use Rattle.runs.specs.Schedule.{row_of, rows_of};

use cells::codes::RowKind;
use cells::columns::schedule;
use cells::kinds::Task;
use cells::limits::Program;
use cells::{table, tasks};

// What a tick does: the new position (rows of the block passed), and the task that runs, if one does.
#[derive(Clone, Copy)]
pub struct Turn {
    pub position: usize,
    pub job: Option<Task>,
}

// Row i of a block has nothing to do: its timeout is reached, or its task is not running.
fn skipped(block: &[i32], left: &[usize], elapsed: usize, i: usize) -> bool
    ensures { result ≡ skipped elapsed left.now (row_of block.now i) }
{
    let kind = table::field(block, schedule::WIDTH, i, schedule::KIND);
    let task: Task = table::named(block, schedule::WIDTH, i, schedule::TASK);
    let timeout = table::field(block, schedule::WIDTH, i, schedule::TIMEOUT);
    let rest = tasks::left(left, task);
    (timeout <= elapsed) | ((kind == usize::from(RowKind::Dispatch)) & (rest <= 0))
}

// The position after the rows that have nothing to do, from this position on.
fn moved(block: &[i32], left: &[usize], elapsed: usize, position: usize) -> usize
    ensures { result ≡ position + passed (drop position (rows_of block.now)) elapsed left.now }
{
    let n = block.len() / schedule::WIDTH;
    for i in position..n {
        if !skipped(block, left, elapsed, i) {
            return i;
        }
    }
    n.max(position)
}

// What runs in a tick whose position is row i of the block: the task of a dispatch, and nothing at an idle row or after the last row.
fn at_row(block: &[i32], i: usize) -> Turn
    ensures { result ≡ turn_of i (act (drop i (rows_of block.now))) }
{
    let n = block.len() / schedule::WIDTH;
    let kind = table::field(block, schedule::WIDTH, i, schedule::KIND);
    let mut job = None;
    if (i < n) & (kind == usize::from(RowKind::Dispatch)) {
        job = Some(table::named(block, schedule::WIDTH, i, schedule::TASK));
    }
    Turn { position: i, job }
}

// One tick of a block, after so many ticks of the unit: rows are passed at its start alone.
pub fn tick(block: &[i32], elapsed: usize, left: [usize; Program::TASKS], position: usize) -> Turn
    ensures { result ≡ turn (rows_of block.now) elapsed (record { position = position; left = left }) }
{
    let at = moved(block, &left, elapsed, position);
    at_row(block, at)
}

// The remaining times after a tick: the task that ran in it, if one did, has a tick less to run.
#[tactic(auto, unfolding(crate::specs::Tick::after_turn))]
pub fn after(job: Option<Task>, mut left: [usize; Program::TASKS]) -> [usize; Program::TASKS]
    ensures { result ≡ after_turn job left }
{
    if let Some(own) = job {
        let rest = tasks::left(&left, own);
        tasks::put_left(&mut left, own, rest.saturating_sub(1));
    }
    left
}

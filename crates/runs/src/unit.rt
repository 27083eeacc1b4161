// The ticks of one unit, watched: up to the first that a supplier runs outside its windows.
ghost use Rattle.std.specs.Prelude.{◌≡◌, ◌+◌, ◌≤◌};
ghost use Rattle.cells.specs.Cell.{greatest_word};
ghost use Rattle.runs.specs.Windows.{in_window};
ghost use Rattle.runs.specs.Schedule.{rows_of};
ghost use Rattle.runs.specs.Round.{watched, told_ticks};

use crate::turn;
use crate::window::Windows;
use cells::limits::Program;

// Watches so many ticks of a block from its start; `start` ticks of the round have gone by before them. The remaining times at the end,
// or the first tick of the round at which a task runs outside the windows.
pub fn watch(
    block: &[i32],
    windows: Windows,
    ticks: usize,
    start: usize,
    left: [usize; Program::TASKS],
) -> Result<[usize; Program::TASKS], usize>
    requires { start + ticks ≤ greatest_word }
    ensures { result ≡ told_ticks (watched (in_window windows.entry.rows.now windows.entry.supplier windows.entry.mode.0) (rows_of
        block.now) ticks 0 start (record { position = 0; left = left })) }
{
    let mut rest = left;
    let mut position = 0;
    let mut until = 0;
    for e in 0..ticks {
        let t = start + e;
        let turn = turn::tick(block, e, rest, position);
        let runs = turn.job.is_some();
        until = windows.open_until(t, until, runs);
        if runs & (until <= t) {
            return Err(t);
        }
        let next = turn::after(turn.job, rest);
        rest = next;
        position = turn.position;
    }
    Ok(rest)
}

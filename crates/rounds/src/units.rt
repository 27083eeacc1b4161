// One unit of the worst-case run: releases, the ticks of its block, terminations.
ghost use Rattle.std.specs.Prelude.{◌≡◌, suc, ◌≤◌, ◌<◌};
ghost use Rattle.cells.specs.Limits.{max_period, max_units};
ghost use Rattle.runs.specs.Schedule.{rows_of};
ghost use Rattle.rounds.specs.Course.{course_in};
ghost use Rattle.rounds.specs.Breaks.{unit_end};

use crate::own;
use crate::own::Course;
use cells::limits::Program;
use cells::refusals::Refusal;
use runs::unit;
use runs::window::Windows;

// A break of the run: a task runs outside its windows, or has not ended where it must, at a tick of the round.
#[derive(Clone, Copy, Debug, PartialEq, Eq)]
pub struct Broken {
    pub refusal: Refusal,
    pub tick: usize,
}

// Runs unit k of a course from these remaining times; its block is a part of the schedule. The remaining times after the unit, or its
// break.
pub fn one_unit(
    course: Course,
    block: &[i32],
    k: usize,
    left: [usize; Program::TASKS],
) -> Result<[usize; Program::TASKS], Broken>
    requires k_lt_u { k < course.units }
    requires u_bound { course.units ≤ suc max_units }
    requires ticks_le_max_period { course.ticks ≤ max_period }
    ensures { let c = course.entry in
        let run = course_in c.tasks.now c.invocations.now c.windows.now c.supplier c.mode.0 c.units c.ticks in
        result ≡ unit_end (run (λ j. rows_of block.now)) k left }
{
    let windows = Windows {
        rows: course.windows,
        supplier: course.supplier,
        mode: course.mode,
    };
    let begun = course.released(k, left);
    let watched = unit::watch(block, windows, course.ticks, k * course.ticks, begun);
    let rest = watched.map_err(|tick| Broken {
        refusal: Refusal::Outside,
        tick,
    })?;
    if course.unended(own::next_of(course.units, k), &rest) {
        return Err(Broken {
            refusal: Refusal::Late,
            tick: (k + 1) * course.ticks,
        });
    }
    Ok(rest)
}

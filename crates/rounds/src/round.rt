// The round of one mode: its units one after the other, from nothing running, up to the first break.
ghost use Rattle.std.specs.Prelude.{◌≡◌, suc, ◌+◌, ◌≤◌, ℤ};
ghost use Rattle.cells.specs.Limits.{max_ports, max_period, max_units};
ghost use Rattle.program.specs.Tables.{tables_in};
ghost use Rattle.rules.specs.Shape.{InShape};
ghost use Rattle.layout.specs.Counts.{counts_in, most_mode, most_code};
ghost use Rattle.runs.specs.Schedule.{Sorted};
ghost use Rattle.runs.specs.Round.{worst_break, nothing};
ghost use Rattle.rounds.specs.Course.{course_in, block_at, rows_at_future, row_before, Come};
ghost use Rattle.rounds.specs.Breaks.{rounded};

use crate::own::Course;
use crate::units;
use crate::units::Broken;
use cells::kinds::Mode;
use cells::limits::Program;
use cells::tables::ProgramTables;
use layout::counts;
use layout::counts::Instant;
use runs::block;

// Where a walk over the listing and the part has come to: the address of the next block, and a row before which no row of it stands.
#[derive(Clone, Copy)]
pub struct Reached {
    pub at: usize,
    pub row: usize,
}

// What is asked about: a supplier, with the tables of the program, how many sensors they declare, the windows and the supplier's part.
#[derive(Clone, Copy)]
pub struct Asked<'a> {
    pub tables: &'a ProgramTables<'a>,
    pub windows: &'a [i32],
    pub part: &'a [i32],
    pub sensors: usize,
    pub supplier: usize,
}

// The round of mode m, of u units of so many ticks, whose first block the walk has come to: where the walk comes to, or the first break.
pub fn one_round(
    asked: Asked,
    m: Mode,
    u: usize,
    ticks: usize,
    begin: Reached,
) -> Result<Reached, Broken>
    requires in_shape { InShape asked.tables.now }
    requires sensors_le_max_ports { asked.sensors ≤ max_ports }
    requires u_bound { u ≤ suc max_units }
    requires ticks_le_max_period { ticks ≤ max_period }
    requires most_mode_bound { begin.at + most_mode ≤ most_code }
    requires sorted { Sorted asked.part.now }
    requires come { Come asked.part.now asked.supplier begin.at begin.row }
    ensures { (start : ℤ) → let a = asked.entry in
        let T = tables_in a.tables.now start in
        let counts = counts_in T.invocations T.updates T.switches a.sensors m.0 u in
        let course = course_in T.tasks T.invocations a.windows.now a.supplier m.0 u ticks in
        result ≡ rounded (worst_break (course (rows_at_future a.part.now a.supplier counts begin.at)) nothing)
        (block_at counts begin.at u) (row_before a.part.now a.supplier counts begin.at begin.row u) }
{
    let course = Course {
        tasks: asked.tables.tasks,
        invocations: asked.tables.invocations,
        windows: asked.windows,
        supplier: asked.supplier,
        mode: m,
        units: u,
        ticks,
    };
    let mut left = [0; Program::TASKS];
    let mut at = begin.at;
    let mut row = begin.row;
    for k in 0..u {
        let when = Instant {
            mode: m,
            units: u,
            unit: k,
        };
        let due = counts::count(asked.tables, asked.sensors, when);
        let found = block::find(
            asked.part,
            row,
            asked.supplier,
            at + counts::before_future(due),
        );
        left = units::one_unit(course, block::rows_at(asked.part, found), k, left)?;
        at += counts::block_size(due);
        row = found.end;
    }
    Ok(Reached { at, row })
}

// The modes one after the other, reached or not, up to the first whose run breaks.
ghost use Rattle.std.specs.Prelude.{◌≡◌, ◌+◌, ◌≤◌, ◌<◌, ℤ};
ghost use Rattle.answers.specs.Answers.{answer_of};
ghost use Rattle.cells.specs.Cell.{rows_in};
ghost use Rattle.cells.specs.Limits.{max_ports};
ghost use Rattle.program.specs.Tables.{table_at, tables_in, modes_at, mode_width, mode_count};
ghost use Rattle.program.specs.Units.{units};
ghost use Rattle.rules.specs.Shape.{InShape};
ghost use Rattle.layout.specs.Counts.{most_mode, most_code};
ghost use Rattle.layout.specs.Few.{Periods};
ghost use Rattle.layout.specs.Layout.{unit_counts, size_in, start_in};
ghost use Rattle.runs.specs.Schedule.{Sorted};
ghost use Rattle.runs.specs.Round.{worst_break, nothing};
ghost use Rattle.suppliers.specs.Supplier.{answer_from};
ghost use Rattle.rounds.specs.Course.{row_before, course_on, Come};
ghost use Rattle.rounds.specs.Breaks.{rounded};

use crate::round;
use crate::round::{Asked, Reached};
use crate::units::Broken;
use answers::Refused;
use cells::columns::mode;
use cells::kinds::{Kind, Mode};
use cells::modes;
use cells::tables::ProgramTables;
use program::multiples;

// The round of mode m, whose first block the walk has come to.
fn one_mode(asked: Asked, m: Mode, begin: Reached) -> Result<Reached, Broken>
    requires in_shape { InShape asked.tables.now }
    requires sensors_le_max_ports { asked.sensors ≤ max_ports }
    requires periods { Periods (table_at asked.tables.now modes_at) }
    requires m_bound { m.0 < rows_in mode_width (table_at asked.tables.now modes_at) }
    requires most_mode_bound { begin.at + most_mode ≤ most_code }
    requires sorted { Sorted asked.part.now }
    requires come { Come asked.part.now asked.supplier begin.at begin.row }
    ensures { (start : ℤ) → let a = asked.entry in
        let T = tables_in a.tables.now start in
        result ≡ rounded (worst_break (course_on T a.windows.now a.part.now a.supplier a.sensors m.0 begin.at) nothing)
        (begin.at + size_in T a.sensors m.0)
        (row_before a.part.now a.supplier (unit_counts T a.sensors m.0) begin.at begin.row (units T m.0)) }
{
    let u = multiples::units(asked.tables, m);
    let period = modes::period(asked.tables.modes, m);
    let ticks = period / u;
    round::one_round(asked, m, u, ticks, begin)
}

// The answer on all modes, reached or not: 14 or 15 with mode and tick of the first break, or accepted.
pub fn answer(
    tables: &ProgramTables,
    windows: &[i32],
    part: &[i32],
    sensors: usize,
    supplier: usize,
) -> Result<(), Refused>
    requires in_shape { InShape tables.now }
    requires sensors_le_max_ports { sensors ≤ max_ports }
    requires periods { Periods (table_at tables.now modes_at) }
    requires sorted { Sorted part.now }
    ensures { (start : ℤ) → let T = tables_in tables.now start in
        let course = course_on T windows.now part.now supplier sensors in
        answer_of result ≡ answer_from (λ m. worst_break (course m (start_in T sensors m)) nothing) (mode_count T) 0 }
{
    let asked = Asked {
        tables,
        windows,
        part,
        sensors,
        supplier,
    };
    let mut reached = Reached { at: 1, row: 0 };
    for k in 0..tables.modes.len() / mode::WIDTH {
        reached = one_mode(asked, Mode::of(k), reached).map_err(move |broken| Refused {
            refusal: broken.refusal,
            outer: k,
            inner: broken.tick,
        })?;
    }
    Ok(())
}

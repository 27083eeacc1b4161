// The tables of a text that was read, as they lie in the room.
ghost use Rattle.std.specs.Prelude.{◌≡◌, ◌<◌, ℤ};
ghost use Rattle.program.specs.Tables.{tables_in};
ghost use Rattle.intake.specs.Line.{fed};
ghost use Rattle.cells.specs.Limits.{table_count};
ghost use Rattle.intake.specs.Heard.{piece, tables_read};

use crate::state::Intake;
use cells::parts::part;
use cells::tables;
use cells::tables::ProgramTables;

// The part of the room that the table at a place has.
fn own(i: Intake, table: usize, room: &[i32]) -> &[i32]
    requires { table < table_count }
    ensures { result.now ≡ piece i room.now table }
{
    let span = i.spans[table];
    part(room, span.from, span.len)
}

// The ten tables of the text, each the part of the room from where it begins.
pub fn tables(i: Intake, room: &[i32]) -> ProgramTables<'_>
    ensures { (start : ℤ) → tables_in result start ≡ tables_read (fed i room.now) start }
{
    ProgramTables {
        ports: own(i, tables::PORTS, room),
        tasks: own(i, tables::TASKS, room),
        task_ports: own(i, tables::TASK_PORTS, room),
        drivers: own(i, tables::DRIVERS, room),
        copies: own(i, tables::COPIES, room),
        modes: own(i, tables::MODES, room),
        mode_ports: own(i, tables::MODE_PORTS, room),
        invocations: own(i, tables::INVOCATIONS, room),
        updates: own(i, tables::UPDATES, room),
        switches: own(i, tables::SWITCHES, room),
    }
}

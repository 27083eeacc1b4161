// The rows of the table at a place, counted. It is a call, since only a call's answer tells that the number fits.
ghost use Rattle.std.specs.Prelude.{◌≡◌, ℤ};
ghost use Rattle.program.specs.Tables.{tables_in, rows_at};

use cells::columns::{
    copy, driver, invocation, mode, mode_port, port, switch, task, task_port, update,
};
use cells::tables;
use cells::tables::ProgramTables;

// How many rows the table at a place has; none past the last table.
pub fn count(tables: &ProgramTables, place: usize) -> usize
    ensures { (start : ℤ) → result ≡ rows_at (tables_in tables.now start) place }
{
    // A match on the place of a table: `table_at` of the definition is this list.
    match place {
        tables::PORTS => tables.ports.len() / port::WIDTH,
        tables::TASKS => tables.tasks.len() / task::WIDTH,
        tables::TASK_PORTS => tables.task_ports.len() / task_port::WIDTH,
        tables::DRIVERS => tables.drivers.len() / driver::WIDTH,
        tables::COPIES => tables.copies.len() / copy::WIDTH,
        tables::MODES => tables.modes.len() / mode::WIDTH,
        tables::MODE_PORTS => tables.mode_ports.len() / mode_port::WIDTH,
        tables::INVOCATIONS => tables.invocations.len() / invocation::WIDTH,
        tables::UPDATES => tables.updates.len() / update::WIDTH,
        tables::SWITCHES => tables.switches.len() / switch::WIDTH,
        _ => 0,
    }
}

// Number 1: whole rows, no more than the limit, some mode.
ghost use Rattle.std.specs.Prelude.{◌≡◌, ◌<◌, ℤ};
ghost use Rattle.program.specs.Tables.{tables_in};
ghost use Rattle.rules.specs.Shape.{bad_slice, shape_bad};

use cells::columns::{
    copy, driver, invocation, mode, mode_port, port, switch, task, task_port, update,
};
use cells::limits::Program;
use cells::tables::ProgramTables;

// A slice is not whole rows of this width, or has more rows than the limit.
#[tactic(auto, unfolding(rules::specs::Shape::bad_slice))]
pub fn bad_slice(t: &[i32], width: usize, limit: usize) -> bool
    requires { 0 < width }
    ensures { result ≡ bad_slice width limit t.now }
{
    let whole = t.len() % width == 0;
    !whole | (limit < t.len() / width)
}

// The ten tables do not have their shape, whatever the start mode: number 1 applies.
#[tactic(auto, unfolding(rules::specs::Shape::shape_bad))]
pub fn shape_bad(tables: &ProgramTables) -> bool
    ensures { (start : ℤ) → result ≡ shape_bad (tables_in tables.now start) }
{
    bad_slice(tables.ports, port::WIDTH, Program::PORTS)
        | bad_slice(tables.tasks, task::WIDTH, Program::TASKS)
        | bad_slice(tables.task_ports, task_port::WIDTH, Program::TASK_PORTS)
        | bad_slice(tables.drivers, driver::WIDTH, Program::DRIVERS)
        | bad_slice(tables.copies, copy::WIDTH, Program::COPIES)
        | bad_slice(tables.modes, mode::WIDTH, Program::MODES)
        | bad_slice(tables.mode_ports, mode_port::WIDTH, Program::MODE_PORTS)
        | bad_slice(tables.invocations, invocation::WIDTH, Program::INVOCATIONS)
        | bad_slice(tables.updates, update::WIDTH, Program::UPDATES)
        | bad_slice(tables.switches, switch::WIDTH, Program::SWITCHES)
        | (tables.modes.len() / mode::WIDTH == 0)
}

// A call of E code, by the range of its number: a declared driver, the output copy of a task, the reading of a sensor.
ghost use Rattle.std.specs.Prelude.{◌≡◌, List, ◌≤◌, ℤ};
ghost use Rattle.cells.specs.Cell.{rows_in};
ghost use Rattle.cells.specs.Limits.{max_ports, max_tasks, max_drivers};
ghost use Rattle.program.specs.Tables.{Tables, tables_in, port_width, task_width, driver_width};
ghost use Rattle.program.specs.Program.{program_of};
ghost use Rattle.rules.specs.Shape.{InShape};
ghost use Rattle.machine.specs.Told.{advanced_of};
ghost use Rattle.machine.specs.Instruction.{driver_call, output_call, sensor_call, call_of};
ghost use Rattle.instants.specs.Step.{call_answer};

use cells::codes::PortKind;
use cells::kinds::{Driver, Kind, Port, Task};
use cells::limits::Program;
use cells::refusals::Refusal;
use cells::tables::ProgramTables;
use cells::{drivers, tasks};
use machine::State;
use program::members;
use ticking::values;

// The lowest call number that names a driver.
const DRIVER_CALL: usize = 0;

// The highest call number that names a driver.
const LAST_DRIVER_CALL: usize = Program::OUTPUT_CALL - 1;

// The highest call number that names an output copy.
const LAST_OUTPUT_CALL: usize = Program::SENSOR_CALL - 1;

// The call of the driver of number d, which copies if its guard holds: the state after it, or refused as faulty if d is not declared.
fn driver_call(tables: &ProgramTables, d: usize, s: State) -> Result<State, Refusal>
    requires { rows_in driver_width tables.now.drivers.now ≤ max_drivers }
    ensures { (start : ℤ) (readings times : List ℤ) → let T = tables_in tables.now start in
        advanced_of s result ≡ call_answer (program_of T) readings times s (driver_call d) }
{
    let own = Driver::of(d);
    if !drivers::declared(tables.drivers, own) {
        return Err(Refusal::Faulty);
    }
    let ports = values::driven(tables, own, s.ports);
    let mut next = s;
    next.ports = ports;
    Ok(next)
}

// The output copy of the task of number t: refused as faulty if it is not declared, as an overrun if it still runs.
fn output_call(tables: &ProgramTables, t: usize, s: State) -> Result<State, Refusal>
    requires { rows_in task_width tables.now.tasks.now ≤ max_tasks }
    ensures { (start : ℤ) (readings times : List ℤ) → let T = tables_in tables.now start in
        advanced_of s result ≡ call_answer (program_of T) readings times s (output_call t) }
{
    let own = Task::of(t);
    if !tasks::declared(tables.tasks, own) {
        return Err(Refusal::Faulty);
    }
    if 0 < tasks::left(&s.left, own) {
        return Err(Refusal::Overrun);
    }
    let values = values::gives_taken(tables, own, &s.outputs, s.ports);
    let mut next = s;
    next.ports = values;
    Ok(next)
}

// The reading of the sensor of number p: refused as faulty if it is no sensor, or the state after the call.
fn sensor_call(ports: &[i32], readings: &[i32], p: usize, s: State) -> Result<State, Refusal>
    requires { rows_in port_width ports.now ≤ max_ports }
    ensures { (T : Tables) → T.ports ≡ ports.now → (times : List ℤ)
        → advanced_of s result ≡ call_answer (program_of T) readings.now times s (sensor_call p) }
{
    let own = Port::of(p);
    if !members::is_kind(ports, PortKind::Sensor, own) {
        return Err(Refusal::Faulty);
    }
    let values = values::reading_taken(readings, own, s.ports);
    let mut next = s;
    next.ports = values;
    Ok(next)
}

// The call of number n, by its range: refused as faulty or as an overrun, or the state after the call.
pub fn call(tables: &ProgramTables, readings: &[i32], n: usize, s: State) -> Result<State, Refusal>
    requires { InShape tables.now }
    ensures { (start : ℤ) (times : List ℤ) → let P = program_of (tables_in tables.now start) in
        advanced_of s result ≡ call_answer P readings.now times s (call_of n) }
{
    match n {
        DRIVER_CALL..=LAST_DRIVER_CALL => { driver_call(tables, n, s) }
        Program::OUTPUT_CALL..=LAST_OUTPUT_CALL => {
            let t = n - Program::OUTPUT_CALL;
            output_call(tables, t, s)
        }
        Program::SENSOR_CALL.. => sensor_call(tables.ports, readings, n - Program::SENSOR_CALL, s),
    }
}

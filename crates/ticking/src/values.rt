// Port values: what a driver, a task and a sensor's reading put among them. No row copies them.
ghost use Rattle.std.specs.Prelude.{◌≡◌, ◌==◌, slice_set};
ghost use Rattle.theory.specs.Lists.{puts, each};
ghost use Rattle.cells.specs.Limits.{max_ports};
ghost use Rattle.program.specs.Tables.{Tables, port_first, copy_driver};
ghost use Rattle.program.specs.Sets.{may_give};
ghost use Rattle.program.specs.Program.{ports_of, driver_row};
ghost use Rattle.program.specs.Ports.{value_of, assigned, drive};
ghost use Rattle.ticking.specs.Values.{put_row, copy_put, gives_row, gives_put, copied};

use cells::columns::{copy, task_port};
use cells::kinds::{Driver, Kind, Port, Task};
use cells::limits::Program;
use cells::tables::ProgramTables;
use cells::{ports, table};
use program::{guard, members};

// Row i of the copies, if it is one of driver d, puts what its source has among the old values into the new values.
fn copy_row(copies: &[i32], d: Driver, old: &[i32], i: usize, new: &mut [i32])
    ensures { (T : Tables) → T.copies ≡ copies.now
        → new.new ≡ put_row (copy_driver T i == d.0) (copy_put T old.now i) new.old }
{
    let own: Driver = table::named(copies, copy::WIDTH, i, copy::DRIVER);
    if own == d {
        let source: Port = table::named(copies, copy::WIDTH, i, copy::SOURCE);
        let destination: Port = table::named(copies, copy::WIDTH, i, copy::DESTINATION);
        ports::put(new, destination, ports::value(old, source));
    }
}

// The values after all copies of driver d; every source is read before any destination is written.
fn copied(copies: &[i32], d: Driver, values: [i32; Program::PORTS]) -> [i32; Program::PORTS]
    ensures { (T : Tables) → T.copies ≡ copies.now → result ≡ copied T d.0 values }
{
    let n = copies.len() / copy::WIDTH;
    let mut next = values;
    for i in 0..n {
        copy_row(copies, d, &values, i, &mut next);
    }
    next
}

// The values after driver d, which copies only when its guard holds.
pub fn driven(
    tables: &ProgramTables,
    d: Driver,
    values: [i32; Program::PORTS],
) -> [i32; Program::PORTS]
    ensures { (T : Tables) → T.drivers ≡ tables.now.drivers.now → T.copies ≡ tables.now.copies.now
        → result ≡ drive (driver_row T d.0) values }
{
    if guard::guard_holds(tables.drivers, d, &values) {
        return copied(tables.copies, d, values);
    }
    values
}

// Row k of the task ports, if task t gives its port, puts what that port has among the given values into the values.
fn gives_row(tables: &ProgramTables, t: Task, given: &[i32], k: usize, values: &mut [i32])
    ensures { (T : Tables) → T.ports ≡ tables.now.ports.now → T.task_ports ≡ tables.now.task_ports.now
        → values.new ≡ put_row (gives_row T t.0 k) (gives_put T given.now k) values.old }
{
    let own: Task = table::named(tables.task_ports, task_port::WIDTH, k, task_port::TASK);
    let p: Port = table::named(tables.task_ports, task_port::WIDTH, k, task_port::PORT);
    if (own == t) & members::may_give(tables.ports, p) {
        ports::put(values, p, ports::value(given, p));
    }
}

// The values after each port that task t gives, its outputs and private ports, has taken what it has among the given values.
pub fn gives_taken(
    tables: &ProgramTables,
    t: Task,
    given: &[i32],
    values: [i32; Program::PORTS],
) -> [i32; Program::PORTS]
    ensures { (T : Tables) → T.ports ≡ tables.now.ports.now → T.task_ports ≡ tables.now.task_ports.now
        → result ≡ puts (assigned (value_of given.now) (ports_of T (may_give T) t.0)) values }
{
    let n = tables.task_ports.len() / task_port::WIDTH;
    let mut next = values;
    for k in 0..n {
        gives_row(tables, t, given, k, &mut next);
    }
    next
}

// The values after port p has taken its reading.
pub fn reading_taken(
    readings: &[i32],
    p: Port,
    values: [i32; Program::PORTS],
) -> [i32; Program::PORTS]
    ensures { result ≡ slice_set values p.0 (value_of readings.now p.0) }
{
    let mut next = values;
    ports::put(&mut next, p, ports::value(readings, p));
    next
}

// The first value of each port; 0 where no port is declared.
pub fn first_values(ports: &[i32]) -> [i32; Program::PORTS]
    ensures { (T : Tables) → T.ports ≡ ports.now → result ≡ each (port_first T) max_ports 0 }
{
    let mut values = [0; Program::PORTS];
    for k in 0..Program::PORTS {
        let p = Port::of(k);
        ports::put(&mut values, p, ports::first(ports, p));
    }
    values
}

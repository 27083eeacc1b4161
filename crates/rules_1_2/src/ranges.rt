// Number 2, one row at a time: each test says "bad" of a row, as its definition does.
ghost use Rattle.std.specs.Prelude.{◌≡◌, ℤ};
ghost use Rattle.program.specs.Tables.{Tables, tables_in};
ghost use Rattle.rules.specs.Fields.{in_range, port_bad, task_bad, task_port_bad, always_fits, interval_fits, driver_bad, copy_bad, mode_bad};
ghost use Rattle.rules.specs.Fields.{mode_port_bad, invocation_bad, update_bad, switch_bad, start_bad};

use cells::codes::{GuardKind, PortKind};
use cells::columns::{copy, invocation, mode_port, switch, task_port, update};
use cells::kinds::{Driver, Kind, Mode, Port, Task};
use cells::limits::Program;
use cells::tables::ProgramTables;
use cells::{drivers, modes, ports, table, tasks};
use readings::Reading;

// The number n is from 1 to the limit.
#[tactic(auto, unfolding(rules::specs::Fields::in_range))]
fn in_range(n: usize, limit: usize) -> bool
    ensures { result ≡ in_range n limit }
{
    (1..=limit).contains(&n)
}

// Port p has a kind that there is not.
#[tactic(auto, unfolding(rules::specs::Fields::port_bad))]
pub fn port_bad(ports: &[i32], p: Port) -> bool
    ensures { (T : Tables) → T.ports ≡ ports.now → result ≡ port_bad T p.0 }
{
    // The column may hold the number of no kind, so numbers are compared.
    usize::from(PortKind::Private) < ports::kind(ports, p)
}

// Task t has a supplier or a worst-case time out of range.
#[tactic(auto, unfolding(rules::specs::Fields::task_bad))]
pub fn task_bad(tasks: &[i32], t: Task) -> bool
    ensures { (T : Tables) → T.tasks ≡ tasks.now → result ≡ task_bad T t.0 }
{
    let supplier = tasks::owner(tasks, t);
    let worst = tasks::worst(tasks, t);
    !((supplier < Program::SUPPLIERS) & in_range(worst, Program::WORST))
}

// A row of the task ports names no task or no port.
#[tactic(auto, unfolding(rules::specs::Fields::task_port_bad))]
pub fn task_port_bad(tables: &ProgramTables, row: usize) -> bool
    ensures { (start : ℤ) → result ≡ task_port_bad (tables_in tables.now start) row }
{
    let t: Task = table::named(tables.task_ports, task_port::WIDTH, row, task_port::TASK);
    let p: Port = table::named(tables.task_ports, task_port::WIDTH, row, task_port::PORT);
    !(tasks::declared(tables.tasks, t) & ports::declared(tables.ports, p))
}

// Driver d has a guard that always holds, with 0 in its other three fields.
fn always_fits(drivers: &[i32], d: Driver) -> bool
    ensures { (T : Tables) → T.drivers ≡ drivers.now → result ≡ always_fits T d.0 }
{
    let p = drivers::port(drivers, d);
    let low = drivers::low(drivers, d);
    let high = drivers::high(drivers, d);
    drivers::is(drivers, d, GuardKind::Always) & (p == Port::of(0)) & (low == 0) & (high == 0)
}

// Driver d has a guard by an interval, with a port and low ≤ high, and low is no reading only where high is.
fn interval_fits(tables: &ProgramTables, d: Driver) -> bool
    ensures { (start : ℤ) → let T = tables_in tables.now start in
        result ≡ interval_fits T d.0 }
{
    let p = drivers::port(tables.drivers, d);
    let low = drivers::low(tables.drivers, d);
    let high = drivers::high(tables.drivers, d);
    drivers::is(tables.drivers, d, GuardKind::Interval)
        & ports::declared(tables.ports, p)
        & (low <= high)
        & (!Reading(low).is_missing() | Reading(high).is_missing())
}

// Neither kind of guard fits the row of driver d.
#[tactic(auto, unfolding(rules::specs::Fields::driver_bad))]
pub fn driver_bad(tables: &ProgramTables, d: Driver) -> bool
    ensures { (start : ℤ) → let T = tables_in tables.now start in
        result ≡ driver_bad T d.0 }
{
    !(always_fits(tables.drivers, d) | interval_fits(tables, d))
}

// A row of the copies names no driver, or no port as its source or its destination.
#[tactic(auto, unfolding(rules::specs::Fields::copy_bad))]
pub fn copy_bad(tables: &ProgramTables, row: usize) -> bool
    ensures { (start : ℤ) → result ≡ copy_bad (tables_in tables.now start) row }
{
    let d: Driver = table::named(tables.copies, copy::WIDTH, row, copy::DRIVER);
    let from: Port = table::named(tables.copies, copy::WIDTH, row, copy::SOURCE);
    let to: Port = table::named(tables.copies, copy::WIDTH, row, copy::DESTINATION);
    !(drivers::declared(tables.drivers, d)
        & ports::declared(tables.ports, from)
        & ports::declared(tables.ports, to))
}

// Mode m has a period out of range.
#[tactic(auto, unfolding(rules::specs::Fields::mode_bad))]
pub fn mode_bad(modes: &[i32], m: Mode) -> bool
    ensures { (T : Tables) → T.modes ≡ modes.now → result ≡ mode_bad T m.0 }
{
    !in_range(modes::period(modes, m), Program::PERIOD)
}

// A row of the mode ports names no mode or no port.
#[tactic(auto, unfolding(rules::specs::Fields::mode_port_bad))]
pub fn mode_port_bad(tables: &ProgramTables, row: usize) -> bool
    ensures { (start : ℤ) → result ≡ mode_port_bad (tables_in tables.now start) row }
{
    let m: Mode = table::named(tables.mode_ports, mode_port::WIDTH, row, mode_port::MODE);
    let p: Port = table::named(tables.mode_ports, mode_port::WIDTH, row, mode_port::PORT);
    !(modes::declared(tables.modes, m) & ports::declared(tables.ports, p))
}

// A row of the invocations names no mode, task or driver, or its frequency is out of range.
#[tactic(auto, unfolding(rules::specs::Fields::invocation_bad))]
pub fn invocation_bad(tables: &ProgramTables, row: usize) -> bool
    ensures { (start : ℤ) → result ≡ invocation_bad (tables_in tables.now start) row }
{
    let m: Mode = table::named(tables.invocations, invocation::WIDTH, row, invocation::MODE);
    let frequency = table::field(
        tables.invocations,
        invocation::WIDTH,
        row,
        invocation::FREQUENCY,
    );
    let t: Task = table::named(tables.invocations, invocation::WIDTH, row, invocation::TASK);
    let d: Driver = table::named(
        tables.invocations,
        invocation::WIDTH,
        row,
        invocation::DRIVER,
    );
    !(modes::declared(tables.modes, m)
        & in_range(frequency, Program::FREQUENCY)
        & tasks::declared(tables.tasks, t)
        & drivers::declared(tables.drivers, d))
}

// A row of the updates names no mode or driver, or its frequency is out of range.
#[tactic(auto, unfolding(rules::specs::Fields::update_bad))]
pub fn update_bad(tables: &ProgramTables, row: usize) -> bool
    ensures { (start : ℤ) → result ≡ update_bad (tables_in tables.now start) row }
{
    let m: Mode = table::named(tables.updates, update::WIDTH, row, update::MODE);
    let frequency = table::field(tables.updates, update::WIDTH, row, update::FREQUENCY);
    let d: Driver = table::named(tables.updates, update::WIDTH, row, update::DRIVER);
    !(modes::declared(tables.modes, m)
        & in_range(frequency, Program::FREQUENCY)
        & drivers::declared(tables.drivers, d))
}

// A row of the switches names no mode, target or driver, or its frequency is out of range.
#[tactic(auto, unfolding(rules::specs::Fields::switch_bad))]
pub fn switch_bad(tables: &ProgramTables, row: usize) -> bool
    ensures { (start : ℤ) → result ≡ switch_bad (tables_in tables.now start) row }
{
    let m: Mode = table::named(tables.switches, switch::WIDTH, row, switch::MODE);
    let frequency = table::field(tables.switches, switch::WIDTH, row, switch::FREQUENCY);
    let target: Mode = table::named(tables.switches, switch::WIDTH, row, switch::TARGET);
    let d: Driver = table::named(tables.switches, switch::WIDTH, row, switch::DRIVER);
    !(modes::declared(tables.modes, m)
        & in_range(frequency, Program::FREQUENCY)
        & modes::declared(tables.modes, target)
        & drivers::declared(tables.drivers, d))
}

// The start mode of a program is not declared.
#[tactic(auto, unfolding(rules::specs::Fields::start_bad))]
pub fn start_bad(modes: &[i32], program: Program) -> bool
    ensures { (T : Tables) → T.modes ≡ modes.now → T.start ≡ program.start → result ≡ start_bad T }
{
    !modes::declared(modes, Mode::of(table::index(program.start)))
}

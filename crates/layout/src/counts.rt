// How many instructions of each kind a block has; how long its parts are, the block and the mode. No sum wraps.
ghost use Rattle.std.specs.Prelude.{◌≡◌, suc, ◌≤◌, ℤ, length};
ghost use Rattle.theory.specs.Lists.{sum};
ghost use Rattle.cells.specs.Cell.{rows_in};
ghost use Rattle.cells.specs.Limits.{max_ports, max_units};
ghost use Rattle.program.specs.Tables.{table_at, tables_in, port_width, invocations_at, updates_at, switches_at};
ghost use Rattle.program.specs.Sets.{sensor_rows};
ghost use Rattle.layout.specs.Few.{Few, Sized};
ghost use Rattle.layout.specs.Counts.{counts_in, before_tests, before_entry, before_future, size_of};

use cells::codes::PortKind;
use cells::columns::{invocation, port, switch, update};
use cells::kinds::{Kind, Mode, Port};
use cells::ports;
use cells::tables::ProgramTables;
use program::due;
use theory::scan;

// A unit of a mode: the mode, how many units it has, and which of them.
#[derive(Clone, Copy)]
pub struct Instant {
    pub mode: Mode,
    pub units: usize,
    pub unit: usize,
}

// How many rows of each table are due at a unit, and how many sensors there are.
#[derive(Clone, Copy)]
pub struct Counts {
    pub invocations: usize,
    pub updates: usize,
    pub switches: usize,
    pub sensors: usize,
}

// How many sensors are declared.
pub fn sensors(ports: &[i32]) -> usize
    requires { rows_in port_width ports.now ≤ max_ports }
    ensures { result ≡ length (sensor_rows ports.now (λ p. p)) }
{
    scan::count(
        ports.len() / port::WIDTH,
        |k| ports::is(ports, Port::of(k), PortKind::Sensor),
    )
}

// How many rows are due at a unit.
pub fn count(tables: &ProgramTables, sensors: usize, when: Instant) -> Counts
    ensures { let t = table_at tables.now in
        result ≡ counts_in (t invocations_at) (t updates_at) (t switches_at) sensors when.mode.0 when.units when.unit }
{
    let m = when.mode;
    let u = when.units;
    let k = when.unit;
    Counts {
        invocations: due::due_rows(tables.invocations, invocation::WIDTH, m, u, k),
        updates: due::due_rows(tables.updates, update::WIDTH, m, u, k),
        switches: due::due_rows(tables.switches, switch::WIDTH, m, u, k),
        sensors,
    }
}

// How many instructions stand from the beginning of a block to its switch tests.
fn before_tests(c: Counts) -> usize
    requires { Sized c }
    ensures { result ≡ before_tests c }
{
    c.invocations + (c.updates + c.sensors)
}

// How many instructions stand from the beginning of a block to its entry.
pub fn before_entry(c: Counts) -> usize
    requires { Sized c }
    ensures { result ≡ before_entry c }
{
    before_tests(c) + c.switches
}

// How many instructions stand from the beginning of a block to its `future`.
pub fn before_future(c: Counts) -> usize
    requires { Sized c }
    ensures { result ≡ before_future c }
{
    before_entry(c) + 2 * c.invocations
}

// How many instructions a block has.
pub fn block_size(c: Counts) -> usize
    requires { Sized c }
    ensures { result ≡ size_of c }
{
    before_tests(c) + (c.switches + (2 * c.invocations + (2 + 2 * c.switches)))
}

// How many instructions the block of a unit has.
fn unit_size(tables: &ProgramTables, sensors: usize, when: Instant) -> usize
    requires few { Few tables.now.invocations.now tables.now.updates.now tables.now.switches.now }
    requires sensors_le_max_ports { sensors ≤ max_ports }
    ensures { (start : ℤ) → let T = tables_in tables.now start in
        result ≡ size_of (counts_in T.invocations T.updates T.switches sensors when.mode.0 when.units when.unit) }
{
    block_size(count(tables, sensors, when))
}

// How many instructions the blocks of mode m have together; the mode has u units.
pub fn mode_size(tables: &ProgramTables, sensors: usize, m: Mode, u: usize) -> usize
    requires few { Few tables.now.invocations.now tables.now.updates.now tables.now.switches.now }
    requires sensors_le_max_ports { sensors ≤ max_ports }
    requires u_bound { u ≤ suc max_units }
    ensures { (start : ℤ) → let T = tables_in tables.now start in
        result ≡ sum (λ k. size_of (counts_in T.invocations T.updates T.switches sensors m.0 u k)) u }
{
    let mut total = 0;
    for k in 0..u {
        let when = Instant {
            mode: m,
            units: u,
            unit: k,
        };
        total += unit_size(tables, sensors, when);
    }
    total
}

// Number 3: a task port row repeats, names a sensor or actuator, or one input or private port serves two tasks.
ghost use Rattle.std.specs.Prelude.{◌≡◌, ℤ};
ghost use Rattle.theory.specs.Search.{any, lowest_passing};
ghost use Rattle.program.specs.Tables.{tables_in, Tables, task_port_count};
ghost use Rattle.rules.specs.Declared.{same_port, task_port_clash};

use cells::codes::PortKind;
use cells::columns::task_port;
use cells::kinds::{Port, Task};
use cells::table;
use cells::tables::ProgramTables;
use program::members;
use theory::scan;

// Row k of the task ports names port p.
#[tactic(auto, unfolding(rules::specs::Declared::same_port))]
fn same_port(task_ports: &[i32], p: Port, k: usize) -> bool
    ensures { (T : Tables) → T.task_ports ≡ task_ports.now → result ≡ same_port T p.0 k }
{
    let q: Port = table::named(task_ports, task_port::WIDTH, k, task_port::PORT);
    q == p
}

// One of the first n rows of the task ports names port p.
fn has_same_port(task_ports: &[i32], p: Port, n: usize) -> bool
    ensures { (T : Tables) → T.task_ports ≡ task_ports.now → result ≡ any (same_port T p.0) n }
{
    scan::any(n, |k| same_port(task_ports, p, k))
}

// Row k of the task ports repeats a row before it, names a sensor or actuator, or an input or private port that such a row names.
#[tactic(auto, unfolding(rules::specs::Declared::task_port_clash))]
fn task_port_clash(tables: &ProgramTables, k: usize) -> bool
    ensures { (start : ℤ) → let T = tables_in tables.now start in
        result ≡ task_port_clash T k }
{
    let t: Task = table::named(tables.task_ports, task_port::WIDTH, k, task_port::TASK);
    let p: Port = table::named(tables.task_ports, task_port::WIDTH, k, task_port::PORT);
    let repeats = members::has_task_port(tables.task_ports, t, p, k);
    let sensor = members::is_kind(tables.ports, PortKind::Sensor, p);
    let actuator = members::is_kind(tables.ports, PortKind::Actuator, p);
    let taken = members::may_take(tables.ports, p);
    let serves = has_same_port(tables.task_ports, p, k);
    repeats | sensor | actuator | (taken & serves)
}

// The lowest row of the task ports that breaks number 3, if there is one.
pub fn first_task_port_clash(tables: &ProgramTables) -> Option<usize>
    ensures { (start : ℤ) → let T = tables_in tables.now start in
        result ≡ lowest_passing (task_port_clash T) (task_port_count T) }
{
    scan::first(
        tables.task_ports.len() / task_port::WIDTH,
        |k| task_port_clash(tables, k),
    )
}

// The sets of 001 that the tables declare: is a port in it? A row's test has no loop; each search asks it of one table's rows.
ghost use Rattle.std.specs.Prelude.{◌≡◌, eqb, ℤ};
ghost use Rattle.theory.specs.Search.{any};
ghost use Rattle.cells.specs.Cell.{Column};
ghost use Rattle.cells.specs.Codes.{port_kind_number};
ghost use Rattle.program.specs.Tables.{tables_in, Tables, mode_column, row_mode};
ghost use Rattle.program.specs.Sets.{is_kind, may_take, may_give, is_task_port, is_input, is_output, mode_port_at, is_mode_port};
ghost use Rattle.program.specs.Sets.{copies_to, is_destination};

use cells::codes::PortKind;
use cells::columns::{copy, mode_port, task_port, timed};
use cells::kinds::{Driver, Mode, Port, Task};
use cells::tables::ProgramTables;
use cells::{ports, table};
use theory::scan;

// Port p is declared and of this kind.
#[tactic(auto, unfolding(crate::specs::Sets::is_kind))]
pub fn is_kind(ports: &[i32], kind: PortKind, p: Port) -> bool
    ensures { (T : Tables) → T.ports ≡ ports.now → result ≡ is_kind T (port_kind_number kind) p.0 }
{
    ports::declared(ports, p) & ports::is(ports, p, kind)
}

// Port p is one that a task takes: an input or a private port.
// It and `may_give` stay two lines each: 001 has both sets by name, and their contracts cite them.
#[tactic(auto, unfolding(crate::specs::Sets::may_take))]
pub fn may_take(ports: &[i32], p: Port) -> bool
    ensures { (T : Tables) → T.ports ≡ ports.now → result ≡ may_take T p.0 }
{
    is_kind(ports, PortKind::Input, p) | is_kind(ports, PortKind::Private, p)
}

// Port p is one that a task gives: an output or a private port.
#[tactic(auto, unfolding(crate::specs::Sets::may_give))]
pub fn may_give(ports: &[i32], p: Port) -> bool
    ensures { (T : Tables) → T.ports ≡ ports.now → result ≡ may_give T p.0 }
{
    is_kind(ports, PortKind::Output, p) | is_kind(ports, PortKind::Private, p)
}

// Row k of the task ports says that task t has port p.
// It, `mode_port_at` and `copies_to` stay three: each reads two names of different kinds from its own table.
#[tactic(auto, unfolding(crate::specs::Sets::is_task_port))]
fn task_port_at(task_ports: &[i32], t: Task, p: Port, k: usize) -> bool
    ensures { (T : Tables) → T.task_ports ≡ task_ports.now → result ≡ is_task_port T t.0 p.0 k }
{
    let a: Task = table::named(task_ports, task_port::WIDTH, k, task_port::TASK);
    let b: Port = table::named(task_ports, task_port::WIDTH, k, task_port::PORT);
    (a == t) & (b == p)
}

// One of the first n rows of the task ports says that task t has port p.
pub fn has_task_port(task_ports: &[i32], t: Task, p: Port, n: usize) -> bool
    ensures { (T : Tables) → T.task_ports ≡ task_ports.now → result ≡ any (is_task_port T t.0 p.0) n }
{
    scan::any(n, |k| task_port_at(task_ports, t, p, k))
}

// Port p is an input of task t.
// It and `is_output` stay two: 001 has both sets by name, and each contract cites its own.
#[tactic(auto, unfolding(crate::specs::Sets::is_input))]
pub fn is_input(tables: &ProgramTables, t: Task, p: Port) -> bool
    ensures { (start : ℤ) → let T = tables_in tables.now start in
        result ≡ is_input T t.0 p.0 }
{
    if is_kind(tables.ports, PortKind::Input, p) {
        return has_task_port(
            tables.task_ports,
            t,
            p,
            tables.task_ports.len() / task_port::WIDTH,
        );
    }
    false
}

// Port p is an output of task t.
#[tactic(auto, unfolding(crate::specs::Sets::is_output))]
pub fn is_output(tables: &ProgramTables, t: Task, p: Port) -> bool
    ensures { (start : ℤ) → let T = tables_in tables.now start in
        result ≡ is_output T t.0 p.0 }
{
    if is_kind(tables.ports, PortKind::Output, p) {
        return has_task_port(
            tables.task_ports,
            t,
            p,
            tables.task_ports.len() / task_port::WIDTH,
        );
    }
    false
}

// Row k of the mode ports says that mode m has port p.
#[tactic(auto, unfolding(crate::specs::Sets::mode_port_at))]
fn mode_port_at(mode_ports: &[i32], m: Mode, p: Port, k: usize) -> bool
    ensures { (T : Tables) → T.mode_ports ≡ mode_ports.now → result ≡ mode_port_at T m.0 p.0 k }
{
    let a: Mode = table::named(mode_ports, mode_port::WIDTH, k, mode_port::MODE);
    let b: Port = table::named(mode_ports, mode_port::WIDTH, k, mode_port::PORT);
    (a == m) & (b == p)
}

// One of the first n rows of the mode ports says that mode m has port p.
pub fn has_mode_port(mode_ports: &[i32], m: Mode, p: Port, n: usize) -> bool
    ensures { (T : Tables) → T.mode_ports ≡ mode_ports.now → result ≡ any (mode_port_at T m.0 p.0) n }
{
    scan::any(n, |k| mode_port_at(mode_ports, m, p, k))
}

// Port p is a port of mode m.
#[tactic(auto, unfolding(crate::specs::Sets::is_mode_port))]
pub fn is_mode_port(mode_ports: &[i32], m: Mode, p: Port) -> bool
    ensures { (T : Tables) → T.mode_ports ≡ mode_ports.now → result ≡ is_mode_port T m.0 p.0 }
{
    has_mode_port(mode_ports, m, p, mode_ports.len() / mode_port::WIDTH)
}

// Row c of the copies is a copy of driver d to port p.
#[tactic(auto, unfolding(crate::specs::Sets::copies_to))]
fn copies_to(copies: &[i32], d: Driver, p: Port, c: usize) -> bool
    ensures { (T : Tables) → T.copies ≡ copies.now → result ≡ copies_to T d.0 p.0 c }
{
    let a: Driver = table::named(copies, copy::WIDTH, c, copy::DRIVER);
    let b: Port = table::named(copies, copy::WIDTH, c, copy::DESTINATION);
    (a == d) & (b == p)
}

// One of the first n rows of the copies is a copy of driver d to port p.
pub fn has_copy_to(copies: &[i32], d: Driver, p: Port, n: usize) -> bool
    ensures { (T : Tables) → T.copies ≡ copies.now → result ≡ any (copies_to T d.0 p.0) n }
{
    scan::any(n, |c| copies_to(copies, d, p, c))
}

// Port p is a destination of driver d.
#[tactic(auto, unfolding(crate::specs::Sets::is_destination))]
pub fn is_destination(copies: &[i32], d: Driver, p: Port) -> bool
    ensures { (T : Tables) → T.copies ≡ copies.now → result ≡ is_destination T d.0 p.0 }
{
    has_copy_to(copies, d, p, copies.len() / copy::WIDTH)
}

// Rows i and j of invocations, updates or switches are of one mode.
pub fn one_mode(t: &[i32], width: usize, i: usize, j: usize) -> bool
    requires { Column width mode_column }
    ensures { result ≡ eqb (row_mode width t.now j) (row_mode width t.now i) }
{
    let m: Mode = table::named(t, width, i, timed::MODE);
    let n: Mode = table::named(t, width, j, timed::MODE);
    n == m
}

// Is a port of a task wrong?
ghost use Rattle.std.specs.Prelude.{◌≡◌, ◌&&◌, ℕ, Bool, ℤ};
ghost use Rattle.theory.specs.Search.{any};
ghost use Rattle.cells.specs.Codes.{port_kind_number};
ghost use Rattle.program.specs.Tables.{tables_in, task_port_port, task_port_count};
ghost use Rattle.rules.specs.Modes.{own_port};
ghost use Rattle.ports_6_8.specs.Asked.{Asks};

use cells::codes::PortKind;
use cells::columns::task_port;
use cells::kinds::{Port, Task};
use cells::table;
use cells::tables::ProgramTables;
use program::members;
use theory::scan;

// Row k of the task ports is a port of task t, of this kind.
#[tactic(auto, unfolding(rules::specs::Modes::own_port))]
fn own_port(tables: &ProgramTables, kind: PortKind, t: Task, k: usize) -> bool
    ensures { (start : ℤ) → let T = tables_in tables.now start in
        result ≡ own_port T (port_kind_number kind) t.0 k }
{
    let owner: Task = table::named(tables.task_ports, task_port::WIDTH, k, task_port::TASK);
    let p: Port = table::named(tables.task_ports, task_port::WIDTH, k, task_port::PORT);
    (owner == t) & members::is_kind(tables.ports, kind, p)
}

// Some port of this kind of task t is wrong.
pub fn some_task_port<F: Fn(Port) -> bool>(
    tables: &ProgramTables,
    kind: PortKind,
    t: Task,
    wrong: F,
) -> bool
    requires { (p : Port) → F.pre wrong p }
    ensures { (start : ℤ) (bad : ℕ → Bool) → let T = tables_in tables.now start in
        Asks (F.post wrong) bad
        → result ≡ any (λ k. own_port T (port_kind_number kind) t.0 k && bad (task_port_port T k)) (task_port_count T) }
{
    scan::any(tables.task_ports.len() / task_port::WIDTH, |k| {
        own_port(tables, kind, t, k)
            && wrong(table::named(tables.task_ports, task_port::WIDTH, k, task_port::PORT))
    })
}

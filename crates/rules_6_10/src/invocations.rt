// Number 6: what an invocation row breaks, by itself and against the rows before it.
ghost use Rattle.std.specs.Prelude.{◌≡◌, ℤ};
ghost use Rattle.theory.specs.Search.{any, lowest_passing};
ghost use Rattle.program.specs.Tables.{tables_in, invocation_count};
ghost use Rattle.rules.specs.Modes.{invocation_clash, invocation_wrong};

use cells::codes::PortKind;
use cells::columns::invocation;
use cells::kinds::{Driver, Mode, Task};
use cells::table;
use cells::tables::ProgramTables;
use ports_6_8::{destinations, sources, task_ports};
use program::{guard, members};
use theory::scan;

// Invocation rows i and j are of one mode, and have one task or share an output.
fn invocation_clash(tables: &ProgramTables, i: usize, j: usize) -> bool
    ensures { (start : ℤ) → let T = tables_in tables.now start in
        result ≡ invocation_clash T i j }
{
    if members::one_mode(tables.invocations, invocation::WIDTH, i, j) {
        let t: Task = table::named(tables.invocations, invocation::WIDTH, i, invocation::TASK);
        let u: Task = table::named(tables.invocations, invocation::WIDTH, j, invocation::TASK);
        let shared = task_ports::some_task_port(tables, PortKind::Output, t, |p| {
            members::is_output(tables, u, p)
        });
        return (u == t) | shared;
    }
    false
}

// An invocation row before row i clashes with it: one mode, and one task or a shared output.
fn has_invocation_clash(tables: &ProgramTables, i: usize) -> bool
    ensures { (start : ℤ) → let T = tables_in tables.now start in
        result ≡ any (invocation_clash T i) i }
{
    scan::any(i, |j| invocation_clash(tables, i, j))
}

// Invocation row i breaks number 6, by itself or against a row before it.
fn invocation_wrong(tables: &ProgramTables, i: usize) -> bool
    ensures { (start : ℤ) → result ≡ invocation_wrong (tables_in tables.now start) i }
{
    let m: Mode = table::named(tables.invocations, invocation::WIDTH, i, invocation::MODE);
    let t: Task = table::named(tables.invocations, invocation::WIDTH, i, invocation::TASK);
    let d: Driver = table::named(tables.invocations, invocation::WIDTH, i, invocation::DRIVER);
    let outputs = task_ports::some_task_port(tables, PortKind::Output, t, |p| {
        !members::is_mode_port(tables.mode_ports, m, p)
    });
    let sources = sources::some_source(tables, d, |p| { sources::unreadable(tables, m, p) });
    let destinations = destinations::some_destination(tables.copies, d, |p| {
        !members::is_input(tables, t, p)
    });
    let inputs = task_ports::some_task_port(tables, PortKind::Input, t, |p| {
        !members::is_destination(tables.copies, d, p)
    });
    let always = guard::is_always(tables.drivers, d);
    let clash = has_invocation_clash(tables, i);
    outputs | sources | destinations | inputs | !always | clash
}

// The lowest invocation row that breaks number 6, if there is one.
pub fn first_wrong_invocation(tables: &ProgramTables) -> Option<usize>
    ensures { (start : ℤ) → let T = tables_in tables.now start in result ≡ lowest_passing (invocation_wrong T) (invocation_count T) }
{
    scan::first(
        tables.invocations.len() / invocation::WIDTH,
        |i| invocation_wrong(tables, i),
    )
}

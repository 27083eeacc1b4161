// Number 8: what a switch row breaks, by itself and against the rows before it.
ghost use Rattle.std.specs.Prelude.{◌≡◌, ℤ};
ghost use Rattle.theory.specs.Search.{any, lowest_passing};
ghost use Rattle.program.specs.Tables.{tables_in, switch_count};
ghost use Rattle.rules.specs.Modes.{switch_clash, switch_wrong};

use cells::columns::switch;
use cells::kinds::{Driver, Mode};
use cells::table;
use cells::tables::ProgramTables;
use ports_6_8::{destinations, mode_ports, sources};
use program::{guard, members};
use theory::scan;

// Switch rows i and j are of one mode, and their guards can hold for one valuation.
fn switch_clash(tables: &ProgramTables, i: usize, j: usize) -> bool
    ensures { (start : ℤ) → let T = tables_in tables.now start in
        result ≡ switch_clash T i j }
{
    if members::one_mode(tables.switches, switch::WIDTH, i, j) {
        let d: Driver = table::named(tables.switches, switch::WIDTH, i, switch::DRIVER);
        let e: Driver = table::named(tables.switches, switch::WIDTH, j, switch::DRIVER);
        return guard::guards_meet(tables.drivers, e, d);
    }
    false
}

// A switch row before row i clashes with it: one mode, and guards that can hold together.
fn has_switch_clash(tables: &ProgramTables, i: usize) -> bool
    ensures { (start : ℤ) → let T = tables_in tables.now start in
        result ≡ any (switch_clash T i) i }
{
    scan::any(i, |j| switch_clash(tables, i, j))
}

// Switch row i breaks number 8, by itself or against a row before it.
#[tactic(auto, unfolding(rules::specs::Modes::switch_wrong))]
fn switch_wrong(tables: &ProgramTables, i: usize) -> bool
    ensures { (start : ℤ) → result ≡ switch_wrong (tables_in tables.now start) i }
{
    let m: Mode = table::named(tables.switches, switch::WIDTH, i, switch::MODE);
    let target: Mode = table::named(tables.switches, switch::WIDTH, i, switch::TARGET);
    let d: Driver = table::named(tables.switches, switch::WIDTH, i, switch::DRIVER);
    let sources = sources::some_source(tables, d, |p| { sources::unreadable(tables, m, p) });
    let destinations = destinations::some_destination(tables.copies, d, |p| {
        !members::is_mode_port(tables.mode_ports, target, p)
    });
    let unset = mode_ports::some_port(tables.mode_ports, target, |p| {
        !members::is_destination(tables.copies, d, p)
    });
    let clash = has_switch_clash(tables, i);
    sources | destinations | unset | clash
}

// The lowest switch row that breaks number 8, if there is one.
pub fn first_wrong_switch(tables: &ProgramTables) -> Option<usize>
    ensures { (start : ℤ) → let T = tables_in tables.now start in result ≡ lowest_passing (switch_wrong T) (switch_count T) }
{
    scan::first(
        tables.switches.len() / switch::WIDTH,
        |i| switch_wrong(tables, i),
    )
}

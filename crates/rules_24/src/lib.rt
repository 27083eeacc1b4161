// Number 24: a mode's switches look at a sensor, and none of them is for its missing reading alone.
#![tactic(auto)]

ghost use Rattle.std.specs.Prelude.{◌≡◌, ℤ};
ghost use Rattle.theory.specs.Search.{any};
ghost use Rattle.program.specs.Tables.{tables_in, switch_count};
ghost use Rattle.rules.specs.Missing.{for_missing, gap_at, gap_bad};

use cells::codes::PortKind;
use cells::columns::switch;
use cells::kinds::{Driver, Mode, Port};
use cells::tables::ProgramTables;
use cells::{drivers, table};
use program::{guard, members};
use theory::scan;

// Switch row j is one of mode m, and its guard is on port p for the no-reading value alone.
fn for_missing(tables: &ProgramTables, m: Mode, p: Port, j: usize) -> bool
    ensures { (start : ℤ) → let T = tables_in tables.now start in
        result ≡ for_missing T m.0 p.0 j }
{
    let n: Mode = table::named(tables.switches, switch::WIDTH, j, switch::MODE);
    let d: Driver = table::named(tables.switches, switch::WIDTH, j, switch::DRIVER);
    (n == m) & guard::looks_at(tables.drivers, d, p) & guard::is_missing_alone(tables.drivers, d)
}

// Some switch of mode m is on port p for the no-reading value alone.
fn has_for_missing(tables: &ProgramTables, m: Mode, p: Port) -> bool
    ensures { (start : ℤ) → let T = tables_in tables.now start in
        result ≡ any (for_missing T m.0 p.0) (switch_count T) }
{
    scan::any(
        tables.switches.len() / switch::WIDTH,
        |j| for_missing(tables, m, p, j),
    )
}

// Switch row i looks at a sensor, and no switch of its mode is for that sensor's missing reading alone.
fn gap_at(tables: &ProgramTables, i: usize) -> bool
    ensures { (start : ℤ) → result ≡ gap_at (tables_in tables.now start) i }
{
    let m: Mode = table::named(tables.switches, switch::WIDTH, i, switch::MODE);
    let d: Driver = table::named(tables.switches, switch::WIDTH, i, switch::DRIVER);
    let p = drivers::port(tables.drivers, d);
    let sensor = members::is_kind(tables.ports, PortKind::Sensor, p);
    (guard::is_interval(tables.drivers, d) & sensor) && !has_for_missing(tables, m, p)
}

// Some switch row leaves a gap for a missing reading.
#[tactic(auto, unfolding(rules::specs::Missing::gap_bad))]
pub fn has_gap(tables: &ProgramTables) -> bool
    ensures { (start : ℤ) → result ≡ gap_bad (tables_in tables.now start) }
{
    scan::any(tables.switches.len() / switch::WIDTH, |i| gap_at(tables, i))
}

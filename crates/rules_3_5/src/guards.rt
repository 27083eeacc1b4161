// Number 4 of guards: an interval guard names a private port.
ghost use Rattle.std.specs.Prelude.{◌≡◌, ℤ};
ghost use Rattle.theory.specs.Search.{lowest_passing};
ghost use Rattle.program.specs.Tables.{tables_in, driver_count};
ghost use Rattle.rules.specs.Shape.{InShape};
ghost use Rattle.rules.specs.Declared.{guard_wrong};

use cells::codes::PortKind;
use cells::columns::driver;
use cells::drivers;
use cells::kinds::{Driver, Kind};
use cells::tables::ProgramTables;
use program::{guard, members};
use theory::scan;

// The guard of driver d is an interval on a private port.
fn guard_wrong(tables: &ProgramTables, d: Driver) -> bool
    ensures { (start : ℤ) → let T = tables_in tables.now start in
        result ≡ guard_wrong T d.0 }
{
    let p = drivers::port(tables.drivers, d);
    guard::is_interval(tables.drivers, d) & members::is_kind(tables.ports, PortKind::Private, p)
}

// The lowest row of the drivers that breaks number 4, if there is one.
pub fn first_guard_wrong(tables: &ProgramTables) -> Option<usize>
    requires { InShape tables.now }
    ensures { (start : ℤ) → let T = tables_in tables.now start in result ≡ lowest_passing (guard_wrong T) (driver_count T) }
{
    scan::first(
        tables.drivers.len() / driver::WIDTH,
        |row| guard_wrong(tables, Driver::of(row)),
    )
}

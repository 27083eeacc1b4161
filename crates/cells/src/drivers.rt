// The table of drivers: a driver's guard is read by the driver alone.
ghost use Rattle.std.specs.Prelude.{◌≡◌, eqb, ltb};
ghost use Rattle.cells.specs.Codes.{guard_kind_number};
ghost use Rattle.cells.specs.Cell.{rows_in, field_at, named_at, value_at};
ghost use Rattle.cells.specs.Columns.{driver_width, guard_kind_column, guard_port_column, guard_low_column, guard_high_column};

use crate::codes::GuardKind;
use crate::columns::driver;
use crate::kinds::{Driver, Port};
use crate::table;

// Driver d is declared.
// As for ports: a number of one kind never indexes another's table.
pub fn declared(drivers: &[i32], d: Driver) -> bool
    ensures { result ≡ ltb d.0 (rows_in driver_width drivers.now) }
{
    d.index() < drivers.len() / driver::WIDTH
}

// The number of the kind of guard that driver d has, also one that is no kind.
pub fn guard(drivers: &[i32], d: Driver) -> usize
    ensures { result ≡ field_at driver_width guard_kind_column drivers.now d.0 }
{
    table::field(drivers, driver::WIDTH, d.index(), driver::KIND)
}

// The guard of driver d is of this kind.
pub fn is(drivers: &[i32], d: Driver, k: GuardKind) -> bool
    ensures { result ≡ eqb (field_at driver_width guard_kind_column drivers.now d.0) (guard_kind_number k) }
{
    table::field(drivers, driver::WIDTH, d.index(), driver::KIND) == usize::from(k)
}

// The port that the guard of driver d asks.
pub fn port(drivers: &[i32], d: Driver) -> Port
    ensures { result.0 ≡ named_at driver_width guard_port_column drivers.now d.0 }
{
    table::named(drivers, driver::WIDTH, d.index(), driver::PORT)
}

// The low end of the interval that the guard of driver d has.
pub fn low(drivers: &[i32], d: Driver) -> i32
    ensures { result ≡ value_at driver_width guard_low_column drivers.now d.0 }
{
    table::signed(drivers, driver::WIDTH, d.index(), driver::LOW)
}

// The high end of the interval that the guard of driver d has.
pub fn high(drivers: &[i32], d: Driver) -> i32
    ensures { result ≡ value_at driver_width guard_high_column drivers.now d.0 }
{
    table::signed(drivers, driver::WIDTH, d.index(), driver::HIGH)
}

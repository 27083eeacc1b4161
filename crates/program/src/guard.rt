// When a guard holds, what it looks at, and whether two can hold for one valuation of the ports.
ghost use Rattle.std.specs.Prelude.{◌≡◌, ◌&&◌, eqb};
ghost use Rattle.std.specs.Int.Signed.{le_z};
ghost use Rattle.readings.specs.Reading.{is_missing};
ghost use Rattle.program.specs.Tables.{Tables, guard_kind, guard_port, guard_low, guard_high, kind_always, kind_interval};
ghost use Rattle.program.specs.Guard.{guard_of, holds, meet};
ghost use Rattle.program.specs.Ports.{value_of};

use cells::codes::GuardKind;
use cells::kinds::{Driver, Port};
use cells::{drivers, ports};
use readings::Reading;

// The guard of driver d is always.
pub fn is_always(drivers: &[i32], d: Driver) -> bool
    ensures { (T : Tables) → T.drivers ≡ drivers.now → result ≡ eqb (guard_kind T d.0) kind_always }
{
    drivers::is(drivers, d, GuardKind::Always)
}

// The guard of driver d is an interval.
pub fn is_interval(drivers: &[i32], d: Driver) -> bool
    ensures { (T : Tables) → T.drivers ≡ drivers.now → result ≡ eqb (guard_kind T d.0) kind_interval }
{
    drivers::is(drivers, d, GuardKind::Interval)
}

// The interval of driver d's guard is from no-reading to no-reading.
pub fn is_missing_alone(drivers: &[i32], d: Driver) -> bool
    ensures { (T : Tables) → T.drivers ≡ drivers.now
        → result ≡ (is_missing (guard_low T d.0) && is_missing (guard_high T d.0)) }
{
    Reading(drivers::low(drivers, d)).is_missing() & Reading(drivers::high(drivers, d)).is_missing()
}

// The guard of driver d is an interval on port p.
pub fn looks_at(drivers: &[i32], d: Driver, p: Port) -> bool
    ensures { (T : Tables) → T.drivers ≡ drivers.now
        → result ≡ (eqb (guard_kind T d.0) kind_interval && eqb (guard_port T d.0) p.0) }
{
    is_interval(drivers, d) & (drivers::port(drivers, d) == p)
}

// The guards of drivers d and e ask the same port.
fn one_port(drivers: &[i32], d: Driver, e: Driver) -> bool
    ensures { (T : Tables) → T.drivers ≡ drivers.now → result ≡ eqb (guard_port T d.0) (guard_port T e.0) }
{
    drivers::port(drivers, d) == drivers::port(drivers, e)
}

// The interval of driver d's guard begins no later than that of driver e's guard ends.
fn low_at_most_high(drivers: &[i32], d: Driver, e: Driver) -> bool
    ensures { (T : Tables) → T.drivers ≡ drivers.now → result ≡ le_z (guard_low T d.0) (guard_high T e.0) }
{
    drivers::low(drivers, d) <= drivers::high(drivers, e)
}

// The guards of drivers d and e can both hold for one valuation of the ports.
pub fn guards_meet(drivers: &[i32], d: Driver, e: Driver) -> bool
    ensures { (T : Tables) → T.drivers ≡ drivers.now → result ≡ meet (guard_of T d.0) (guard_of T e.0) }
{
    if is_always(drivers, d) {
        return true;
    }
    if is_always(drivers, e) {
        return true;
    }
    let apart = !one_port(drivers, d, e);
    apart | (low_at_most_high(drivers, d, e) & low_at_most_high(drivers, e, d))
}

// The guard of driver d holds for these values of the ports.
pub fn guard_holds(drivers: &[i32], d: Driver, values: &[i32]) -> bool
    ensures { (T : Tables) → T.drivers ≡ drivers.now → result ≡ holds (guard_of T d.0) (value_of values.now) }
{
    if is_always(drivers, d) {
        return true;
    }
    let v = ports::value(values, drivers::port(drivers, d));
    Reading(v).within(drivers::low(drivers, d), drivers::high(drivers, d))
}

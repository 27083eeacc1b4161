// Does a driver read a port that it may not?
ghost use Rattle.std.specs.Prelude.{◌≡◌, ℕ, Bool, ℤ};
ghost use Rattle.program.specs.Tables.{tables_in};
ghost use Rattle.rules.specs.Modes.{some_source, unreadable};
ghost use Rattle.ports_6_8.specs.Asked.{Asks};

use crate::copies::some_copy;
use cells::codes::PortKind;
use cells::columns::copy;
use cells::drivers;
use cells::kinds::{Driver, Mode, Port};
use cells::tables::ProgramTables;
use program::{guard, members};

// Port p is neither a port of mode m nor a sensor.
#[tactic(auto, unfolding(rules::specs::Modes::unreadable))]
pub fn unreadable(tables: &ProgramTables, m: Mode, p: Port) -> bool
    ensures { (start : ℤ) → let T = tables_in tables.now start in
        result ≡ unreadable T m.0 p.0 }
{
    !members::is_kind(tables.ports, PortKind::Sensor, p)
        && !members::is_mode_port(tables.mode_ports, m, p)
}

// Some source of driver d, a copy's or its interval guard's port, is wrong.
pub fn some_source<F: Fn(Port) -> bool>(tables: &ProgramTables, d: Driver, wrong: F) -> bool
    requires { (p : Port) → F.pre wrong p }
    ensures { (start : ℤ) (bad : ℕ → Bool) → let T = tables_in tables.now start in
        Asks (F.post wrong) bad → result ≡ some_source T bad d.0 }
{
    some_copy(tables.copies, copy::SOURCE, d, &wrong)
        || (guard::is_interval(tables.drivers, d) && wrong(drivers::port(tables.drivers, d)))
}

// Number 9: the least common multiple of a mode's frequencies exceeds the limit or does not divide its period.
ghost use Rattle.std.specs.Prelude.{◌≡◌, ℤ};
ghost use Rattle.theory.specs.Search.{lowest_passing};
ghost use Rattle.program.specs.Tables.{tables_in, mode_count};
ghost use Rattle.rules.specs.Shape.{InShape};
ghost use Rattle.rules.specs.Timing.{units_wrong};

use cells::columns::mode;
use cells::kinds::{Kind, Mode};
use cells::limits::Program;
use cells::modes;
use cells::tables::ProgramTables;
use program::multiples;
use theory::scan;

// The units of mode m exceed the limit or do not divide its period.
#[tactic(auto, unfolding(rules::specs::Timing::units_wrong))]
fn units_wrong(tables: &ProgramTables, m: Mode) -> bool
    ensures { (start : ℤ) → result ≡ units_wrong (tables_in tables.now start) m.0 }
{
    let units = multiples::units(tables, m);
    let period = modes::period(tables.modes, m);
    (Program::UNITS < units) | multiples::misses(period, units)
}

// The lowest mode whose units exceed the limit or do not divide its period, by its number, if there is one.
pub fn first_wrong_units(tables: &ProgramTables) -> Option<usize>
    requires { InShape tables.now }
    ensures { (start : ℤ) → let T = tables_in tables.now start in result ≡ lowest_passing (units_wrong T) (mode_count T) }
{
    scan::first(
        tables.modes.len() / mode::WIDTH,
        |m| units_wrong(tables, Mode::of(m)),
    )
}

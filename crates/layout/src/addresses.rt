// Where each mode of the listing begins and is entered, and how long the listing is: one walk over the modes.
ghost use Rattle.std.specs.Prelude.{◌≡◌, ◌+◌, ◌≤◌, ℤ, length, set};
ghost use Rattle.theory.specs.Lists.{filled};
ghost use Rattle.cells.specs.Limits.{max_ports};
ghost use Rattle.program.specs.Tables.{tables_in, mode_count};
ghost use Rattle.program.specs.Program.{program_of};
ghost use Rattle.rules.specs.Shape.{InShape};
ghost use Rattle.layout.specs.Counts.{before_entry, most_code};
ghost use Rattle.layout.specs.Layout.{unit_counts, size_in, start_in, entry_in, LaidOut, Small};

use crate::counts;
use crate::counts::Instant;
use cells::columns::mode;
use cells::kinds::{Kind, Mode};
use cells::modes;
use cells::tables::ProgramTables;
use program::multiples;

// Where mode m begins and where its unit 0 is entered is put into the lists; it begins at this address. Where it ends is returned.
fn one_more(
    tables: &ProgramTables,
    sensors: usize,
    m: Mode,
    at: usize,
    starts: &mut [usize],
    entries: &mut [usize],
) -> usize
    requires in_shape { InShape tables.now }
    requires sensors_le_max_ports { sensors ≤ max_ports }
    requires at_le_most_code { at ≤ most_code }
    ensures begins { starts.new ≡ set starts.old m.0 at }
    ensures enters { (start : ℤ) → let T = tables_in tables.now start in
        entries.new ≡ set entries.old m.0 (at + before_entry (unit_counts T sensors m.0 0)) }
    ensures end { (start : ℤ) → result ≡ at + size_in (tables_in tables.now start) sensors m.0 }
{
    let u = multiples::units(tables, m);
    let begin = Instant {
        mode: m,
        units: u,
        unit: 0,
    };
    let first = counts::count(tables, sensors, begin);
    let entry = at + counts::before_entry(first);
    let end = at + counts::mode_size(tables, sensors, m, u);
    modes::put_number(starts, m, at);
    modes::put_number(entries, m, entry);
    end
}

// Where each mode begins and is entered is put into the lists, as far as they have room: one mode after the other, behind the jump
// at address 0. The length of the listing is returned. (Two lists: a jump asks where a mode begins, a stub where it is entered.)
pub fn lay_out(
    tables: &ProgramTables,
    sensors: usize,
    starts: &mut [usize],
    entries: &mut [usize],
) -> usize
    requires in_shape { InShape tables.now }
    requires sensors_le_max_ports { sensors ≤ max_ports }
    ensures begins { (start : ℤ) → let T = tables_in tables.now start in
        starts.new ≡ filled (start_in T sensors) (mode_count T) starts.old }
    ensures enters { (start : ℤ) → let T = tables_in tables.now start in
        entries.new ≡ filled (entry_in T sensors) (mode_count T) entries.old }
    ensures end { (start : ℤ) → let T = tables_in tables.now start in result ≡ start_in T sensors (mode_count T) }
    ensures laid { (start : ℤ) → let T = tables_in tables.now start in
        sensors ≡ length (program_of T).sensors → LaidOut T starts.new entries.new result }
    ensures small { (Small starts.old → Small starts.new)
        × (Small entries.old → Small entries.new) × (result ≤ most_code) }
{
    let mut at = 1;
    for k in 0..tables.modes.len() / mode::WIDTH {
        at = one_more(tables, sensors, Mode::of(k), at, starts, entries);
    }
    at
}

// The delay of the `future` at each address of the compiled code, counted from the program's tables: which mode's `future` stands there,
// and the ticks of a unit of each mode.
ghost use Rattle.std.specs.Prelude.{◌≡◌, suc, ◌+◌, ◌≤◌, ℤ, set};
ghost use Rattle.theory.specs.Lists.{sum};
ghost use Rattle.cells.specs.Limits.{max_ports, max_units};
ghost use Rattle.program.specs.Tables.{tables_in, mode_count};
ghost use Rattle.program.specs.Units.{units};
ghost use Rattle.rules.specs.Shape.{InShape};
ghost use Rattle.layout.specs.Counts.{counts_in, before_future, size_of, most_mode, most_code};
ghost use Rattle.layout.specs.Few.{Sized};
ghost use Rattle.layout.specs.Layout.{unit_counts, size_in};
ghost use Rattle.layout.specs.Delays.{units_marked, mode_marks, ticks_in, mode_ticks, delays_of};

use crate::counts;
use crate::counts::{Counts, Instant};
use cells::columns::mode;
use cells::kinds::{Kind, Mode};
use cells::modes;
use cells::tables::ProgramTables;
use program::multiples;

// Mode m is marked at the `future` of a block that begins at this address. Where the block ends is returned.
fn mark_block(c: Counts, m: Mode, at: usize, marks: &mut [u8]) -> usize
    requires sized { Sized c }
    requires at_le_most_code { at ≤ most_code }
    ensures marks { marks.new ≡ set marks.old (at + before_future c) m.0 }
    ensures end { result ≡ at + size_of c }
{
    m.mark(marks, at + counts::before_future(c));
    at + counts::block_size(c)
}

// Mode m is marked at the `future` of each of its u units; it begins at this address. Where it ends is returned.
fn mark_units(
    tables: &ProgramTables,
    sensors: usize,
    m: Mode,
    u: usize,
    at: usize,
    marks: &mut [u8],
) -> usize
    requires in_shape { InShape tables.now }
    requires sensors_le_max_ports { sensors ≤ max_ports }
    requires u_bound { u ≤ suc max_units }
    requires most_mode_bound { at + most_mode ≤ most_code }
    ensures marks { (start : ℤ) → let T = tables_in tables.now start in
        marks.new ≡ units_marked (counts_in T.invocations T.updates T.switches sensors m.0 u) m.0 at u marks.old }
    ensures end { (start : ℤ) → let T = tables_in tables.now start in
        result ≡ at + sum (λ k. size_of (counts_in T.invocations T.updates T.switches sensors m.0 u k)) u }
{
    let mut next = at;
    for k in 0..u {
        let when = Instant {
            mode: m,
            units: u,
            unit: k,
        };
        let c = counts::count(tables, sensors, when);
        next = mark_block(c, m, next, marks);
    }
    next
}

// Mode m is marked at the `future` of each of its units, and the ticks of a unit are put for it; it begins at this address. Where it
// ends is returned.
fn mark_mode(
    tables: &ProgramTables,
    sensors: usize,
    m: Mode,
    at: usize,
    marks: &mut [u8],
    ticks: &mut [usize],
) -> usize
    requires in_shape { InShape tables.now }
    requires sensors_le_max_ports { sensors ≤ max_ports }
    requires most_mode_bound { at + most_mode ≤ most_code }
    ensures marks { (start : ℤ) → let T = tables_in tables.now start in
        marks.new ≡ units_marked (unit_counts T sensors m.0) m.0 at (units T m.0) marks.old }
    ensures ticks { (start : ℤ) → let T = tables_in tables.now start in
        ticks.new ≡ set ticks.old m.0 (ticks_in T m.0) }
    ensures end { (start : ℤ) → result ≡ at + size_in (tables_in tables.now start) sensors m.0 }
{
    let u = multiples::units(tables, m);
    let period = modes::period(tables.modes, m);
    modes::put_number(ticks, m, period / u);
    mark_units(tables, sensors, m, u, at, marks)
}

// Each mode is marked at the address of the `future` of each of its units, and the ticks of a unit are put for it, counted from the
// tables; the other places stay as they are. Where all was unmarked and 0, these are the delays that are counted.
pub fn fill(tables: &ProgramTables, marks: &mut [u8], ticks: &mut [usize])
    requires { InShape tables.now }
    ensures marks { (start : ℤ) → marks.new ≡ mode_marks (tables_in tables.now start) marks.old }
    ensures ticks { (start : ℤ) → ticks.new ≡ mode_ticks (tables_in tables.now start) ticks.old }
{
    let sensors = counts::sensors(tables.ports);
    let mut at = 1;
    for k in 0..tables.modes.len() / mode::WIDTH {
        at = mark_mode(tables, sensors, Mode::of(k), at, marks, ticks);
    }
}

// The delay of the `future` at an address, 0 where none stands.
#[tactic(auto, unfolding(crate::specs::Delays::delays_of))]
pub fn delay(marks: &[u8], ticks: &[usize], address: usize) -> usize
    ensures { result ≡ delays_of marks.now ticks.now address }
{
    modes::number(ticks, Mode::marked(marks, address))
}

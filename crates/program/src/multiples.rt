// The units of a mode: the least common multiple of its frequencies, by trying 1, 2, .. up to the limit. No product is formed.
ghost use Rattle.std.specs.Prelude.{◌≡◌, ℤ};
ghost use Rattle.theory.specs.Search.{any};
ghost use Rattle.cells.specs.Cell.{Column, rows_in};
ghost use Rattle.program.specs.Tables.{tables_in, frequency_column};
ghost use Rattle.program.specs.Units.{misses, row_misses, is_multiple, units};

use cells::columns::{invocation, switch, timed, update};
use cells::kinds::Mode;
use cells::limits::Program;
use cells::table;
use cells::tables::ProgramTables;
use theory::scan;

// The number u is no multiple of the frequency f.
#[tactic(auto, unfolding(crate::specs::Units::misses))]
pub fn misses(u: usize, f: usize) -> bool
    ensures { result ≡ misses u f }
{
    if f == 0 {
        return u != 0;
    }
    u % f != 0
}

// Row i of the table is one of mode m, and u is no multiple of its frequency.
#[tactic(auto, unfolding(crate::specs::Units::row_misses))]
fn row_misses(t: &[i32], width: usize, m: Mode, u: usize, i: usize) -> bool
    requires { Column width frequency_column }
    ensures { result ≡ row_misses width t.now m.0 u i }
{
    let own: Mode = table::named(t, width, i, timed::MODE);
    let f = table::field(t, width, i, timed::FREQUENCY);
    (own == m) & misses(u, f)
}

// Some row of the table is one of mode m, and u is no multiple of its frequency.
fn some_row_misses(t: &[i32], width: usize, m: Mode, u: usize) -> bool
    requires { Column width frequency_column }
    ensures { result ≡ any (row_misses width t.now m.0 u) (rows_in width t.now) }
{
    let n = t.len() / width;
    scan::any(n, |i| row_misses(t, width, m, u, i))
}

// The number u is a multiple of every frequency of mode m.
#[tactic(auto, unfolding(crate::specs::Units::is_multiple))]
fn is_multiple(tables: &ProgramTables, m: Mode, u: usize) -> bool
    ensures { (start : ℤ) → let T = tables_in tables.now start in
        result ≡ is_multiple T m.0 u }
{
    let a = some_row_misses(tables.invocations, invocation::WIDTH, m, u);
    let b = some_row_misses(tables.updates, update::WIDTH, m, u);
    let c = some_row_misses(tables.switches, switch::WIDTH, m, u);
    !(a | b | c)
}

// The units of mode m; one more than the limit where the least common multiple exceeds it.
pub fn units(tables: &ProgramTables, m: Mode) -> usize
    ensures { (start : ℤ) → let T = tables_in tables.now start in
        result ≡ units T m.0 }
{
    for u in 0..Program::UNITS {
        if is_multiple(tables, m, u + 1) {
            return u + 1;
        }
    }
    Program::UNITS + 1
}

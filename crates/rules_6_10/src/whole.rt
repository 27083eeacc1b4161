// Number 10: in a mode, task frequency divided by switch frequency is not whole.
ghost use Rattle.std.specs.Prelude.{◌≡◌, ℤ};
ghost use Rattle.theory.specs.Search.{lowest_passing};
ghost use Rattle.program.specs.Tables.{tables_in, switch_count};
ghost use Rattle.rules.specs.Timing.{not_whole, whole_wrong};

use cells::columns::{invocation, switch};
use cells::kinds::Mode;
use cells::table;
use cells::tables::ProgramTables;
use program::multiples;
use theory::scan;

// Switch row s and invocation row i are of one mode, and the invocation frequency divided by the switch frequency is not whole.
#[tactic(auto, unfolding(rules::specs::Timing::not_whole))]
fn not_whole(tables: &ProgramTables, s: usize, i: usize) -> bool
    ensures { (start : ℤ) → let T = tables_in tables.now start in
        result ≡ not_whole T s i }
{
    let a: Mode = table::named(tables.invocations, invocation::WIDTH, i, invocation::MODE);
    let b: Mode = table::named(tables.switches, switch::WIDTH, s, switch::MODE);
    let task = table::field(
        tables.invocations,
        invocation::WIDTH,
        i,
        invocation::FREQUENCY,
    );
    let change = table::field(tables.switches, switch::WIDTH, s, switch::FREQUENCY);
    (a == b) & multiples::misses(task, change)
}

// Some invocation row of the mode of switch row s has a frequency that the switch frequency does not divide.
#[tactic(auto, unfolding(rules::specs::Timing::whole_wrong))]
fn whole_wrong(tables: &ProgramTables, s: usize) -> bool
    ensures { (start : ℤ) → let T = tables_in tables.now start in
        result ≡ whole_wrong T s }
{
    scan::any(
        tables.invocations.len() / invocation::WIDTH,
        |i| not_whole(tables, s, i),
    )
}

// The lowest switch row that breaks number 10, if there is one.
pub fn first_not_whole(tables: &ProgramTables) -> Option<usize>
    ensures { (start : ℤ) → let T = tables_in tables.now start in
        result ≡ lowest_passing (whole_wrong T) (switch_count T) }
{
    scan::first(
        tables.switches.len() / switch::WIDTH,
        |s| whole_wrong(tables, s),
    )
}

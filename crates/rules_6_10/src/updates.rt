// Number 7: what an update row breaks, by itself and against the rows before it.
ghost use Rattle.std.specs.Prelude.{◌≡◌, ℤ};
ghost use Rattle.theory.specs.Search.{any, lowest_passing};
ghost use Rattle.program.specs.Tables.{tables_in, update_count};
ghost use Rattle.rules.specs.Modes.{update_clash, update_wrong};

use cells::codes::PortKind;
use cells::columns::update;
use cells::kinds::{Driver, Mode};
use cells::table;
use cells::tables::ProgramTables;
use ports_6_8::{destinations, sources};
use program::members;
use theory::scan;

// Update rows i and j are of one mode and share a destination.
#[tactic(auto, unfolding(rules::specs::Modes::update_clash))]
fn update_clash(tables: &ProgramTables, i: usize, j: usize) -> bool
    ensures { (start : ℤ) → let T = tables_in tables.now start in
        result ≡ update_clash T i j }
{
    if members::one_mode(tables.updates, update::WIDTH, i, j) {
        let d: Driver = table::named(tables.updates, update::WIDTH, i, update::DRIVER);
        let e: Driver = table::named(tables.updates, update::WIDTH, j, update::DRIVER);
        return destinations::some_destination(tables.copies, d, |p| {
            members::is_destination(tables.copies, e, p)
        });
    }
    false
}

// An update row before row i clashes with it: one mode and a shared destination.
fn has_update_clash(tables: &ProgramTables, i: usize) -> bool
    ensures { (start : ℤ) → let T = tables_in tables.now start in
        result ≡ any (update_clash T i) i }
{
    scan::any(i, |j| update_clash(tables, i, j))
}

// Update row i breaks number 7, by itself or against a row before it.
#[tactic(auto, unfolding(rules::specs::Modes::update_wrong))]
fn update_wrong(tables: &ProgramTables, i: usize) -> bool
    ensures { (start : ℤ) → result ≡ update_wrong (tables_in tables.now start) i }
{
    let m: Mode = table::named(tables.updates, update::WIDTH, i, update::MODE);
    let d: Driver = table::named(tables.updates, update::WIDTH, i, update::DRIVER);
    let sources = sources::some_source(tables, d, |p| {
        !members::is_mode_port(tables.mode_ports, m, p)
    });
    let destinations = destinations::some_destination(tables.copies, d, |p| {
        !members::is_kind(tables.ports, PortKind::Actuator, p)
    });
    let clash = has_update_clash(tables, i);
    sources | destinations | clash
}

// The lowest update row that breaks number 7, if there is one.
pub fn first_wrong_update(tables: &ProgramTables) -> Option<usize>
    ensures { (start : ℤ) → let T = tables_in tables.now start in result ≡ lowest_passing (update_wrong T) (update_count T) }
{
    scan::first(
        tables.updates.len() / update::WIDTH,
        |i| update_wrong(tables, i),
    )
}

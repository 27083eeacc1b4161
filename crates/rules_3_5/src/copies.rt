// Number 4 of copies: one names a private port, or one driver has two to one destination.
ghost use Rattle.std.specs.Prelude.{◌≡◌, ℤ};
ghost use Rattle.theory.specs.Search.{lowest_passing};
ghost use Rattle.program.specs.Tables.{tables_in, copy_count};
ghost use Rattle.rules.specs.Declared.{copy_clash};

use cells::codes::PortKind;
use cells::columns::copy;
use cells::kinds::{Driver, Port};
use cells::table;
use cells::tables::ProgramTables;
use program::members;
use theory::scan;

// Row c of the copies names a private port, or a row before it has its driver and its destination.
#[tactic(auto, unfolding(rules::specs::Declared::copy_clash))]
fn copy_clash(tables: &ProgramTables, c: usize) -> bool
    ensures { (start : ℤ) → let T = tables_in tables.now start in
        result ≡ copy_clash T c }
{
    let d: Driver = table::named(tables.copies, copy::WIDTH, c, copy::DRIVER);
    let from: Port = table::named(tables.copies, copy::WIDTH, c, copy::SOURCE);
    let to: Port = table::named(tables.copies, copy::WIDTH, c, copy::DESTINATION);
    let reads = members::is_kind(tables.ports, PortKind::Private, from);
    let writes = members::is_kind(tables.ports, PortKind::Private, to);
    let repeats = members::has_copy_to(tables.copies, d, to, c);
    reads | writes | repeats
}

// The lowest row of the copies that breaks number 4, if there is one.
pub fn first_copy_clash(tables: &ProgramTables) -> Option<usize>
    ensures { (start : ℤ) → let T = tables_in tables.now start in
        result ≡ lowest_passing (copy_clash T) (copy_count T) }
{
    scan::first(tables.copies.len() / copy::WIDTH, |c| copy_clash(tables, c))
}

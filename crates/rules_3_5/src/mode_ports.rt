// Number 5: a mode port row repeats or names no output port.
ghost use Rattle.std.specs.Prelude.{◌≡◌, ℤ};
ghost use Rattle.theory.specs.Search.{lowest_passing};
ghost use Rattle.program.specs.Tables.{tables_in, mode_port_count};
ghost use Rattle.rules.specs.Declared.{mode_port_clash};

use cells::codes::PortKind;
use cells::columns::mode_port;
use cells::kinds::{Mode, Port};
use cells::table;
use cells::tables::ProgramTables;
use program::members;
use theory::scan;

// Row k of the mode ports repeats a row before it or names no output port.
#[tactic(auto, unfolding(rules::specs::Declared::mode_port_clash))]
fn mode_port_clash(tables: &ProgramTables, k: usize) -> bool
    ensures { (start : ℤ) → let T = tables_in tables.now start in
        result ≡ mode_port_clash T k }
{
    let m: Mode = table::named(tables.mode_ports, mode_port::WIDTH, k, mode_port::MODE);
    let p: Port = table::named(tables.mode_ports, mode_port::WIDTH, k, mode_port::PORT);
    let repeats = members::has_mode_port(tables.mode_ports, m, p, k);
    let output = members::is_kind(tables.ports, PortKind::Output, p);
    repeats | !output
}

// The lowest row of the mode ports that breaks number 5, if there is one.
pub fn first_mode_port_clash(tables: &ProgramTables) -> Option<usize>
    ensures { (start : ℤ) → let T = tables_in tables.now start in
        result ≡ lowest_passing (mode_port_clash T) (mode_port_count T) }
{
    scan::first(
        tables.mode_ports.len() / mode_port::WIDTH,
        |k| mode_port_clash(tables, k),
    )
}

// Compiling a program that numbers 1 to 10 and 24 pass: number 11, or its listing.
ghost use Rattle.std.specs.Prelude.{◌≡◌, ℤ};
ghost use Rattle.theory.specs.Verdict.{accepted_number};
ghost use Rattle.program.specs.Tables.{table_at, tables_in, modes_at, start_mode};
ghost use Rattle.rules.specs.Shape.{InShape};
ghost use Rattle.rules.specs.Verdict.{program_verdict};
ghost use Rattle.layout.specs.Few.{Periods};
ghost use Rattle.compiler.specs.Listed.{compiled_of, compiling, outcome, listed};

use crate::listing;
use crate::rounds::Source;
use answers::Refused;
use cells::kinds::Mode;
use cells::limits::Program;
use cells::refusals::Refusal;
use cells::tables::ProgramTables;
use layout::{addresses, counts};

// A program that numbers 1 to 10 and 24 pass is compiled; its listing is written only where it is within the limit and the slice.
pub fn listed(tables: &ProgramTables, first: Mode, code: &mut [u32]) -> Result<usize, Refused>
    requires in_shape { InShape tables.now }
    requires periods { Periods (table_at tables.now modes_at) }
    ensures { (start : ℤ) → let T = tables_in tables.now start in first.0 ≡ start_mode T
        → program_verdict T ≡ accepted_number → outcome (compiled_of result) code.new ≡ listed (compiling T code.old) }
{
    let sensors = counts::sensors(tables.ports);
    let mut starts = [0; Program::MODES];
    let mut entries = [0; Program::MODES];
    let n = addresses::lay_out(tables, sensors, &mut starts, &mut entries);
    if (Program::CODE < n) | (code.len() < Program::WORDS * n) {
        return Err(Refused::from(Refusal::Code));
    }
    let source = Source {
        tables,
        entries: &entries,
        sensors,
    };
    listing::all(code, source, &starts, first);
    Ok(n)
}

// Compiling: the answer 1 to 11 or 24 on a program, and its E code, written into a lent slice.
#![tactic(auto)]

ghost use Rattle.std.specs.Prelude.{◌≡◌};
ghost use Rattle.program.specs.Tables.{tables_in};
ghost use Rattle.code.specs.Compile.{compile_answer, compile_slice};
ghost use Rattle.compiler.specs.Listed.{compiled_of, compiling};

use answers::Refused;
use cells::kinds::{Kind, Mode};
use cells::limits::Program;
use cells::table;
use cells::tables::ProgramTables;

mod accepted;
mod listing;
mod rounds;

// A program is compiled into a lent slice; any slices at all may be lent. A refusal leaves the slice, a listing the rest of it, as it was.
pub fn compile(tables: &ProgramTables, program: Program, code: &mut [u32]) -> Result<usize, Refused>
    ensures answer { compiled_of result ≡ compile_answer (compiling (tables_in tables.now program.start) code.old) }
    ensures slice { code.new ≡ compile_slice (compiling (tables_in tables.now program.start)
        code.old) }
{
    verdict::program_verdict(tables, program)?;
    accepted::listed(tables, Mode::of(table::index(program.start)), code)
}

// Numbers 2 to 11 and 24, for every call that is lent the tables and more: its own 1 comes before them, numbers of its own behind.
#![tactic(auto)]

ghost use Rattle.std.specs.Prelude.{◌≡◌, ℤ};
ghost use Rattle.answers.specs.Answers.{answer_of};
ghost use Rattle.program.specs.Tables.{tables_in};
ghost use Rattle.rules.specs.Shape.{InShape};
ghost use Rattle.code.specs.Compile.{code_long};
ghost use Rattle.verdict_2_11.specs.Tables.{tables_and_code_answer};

use answers::Refused;
use cells::limits::Program;
use cells::refusals::Refusal;
use cells::tables::ProgramTables;
use layout::{addresses, counts};

// Number 11 applies: the E code exceeds the limit. The code is counted, not written, and where its modes stand is not kept.
pub fn code_long(tables: &ProgramTables) -> bool
    requires { InShape tables.now }
    ensures { (start : ℤ) → result ≡ code_long (tables_in tables.now start) }
{
    let sensors = counts::sensors(tables.ports);
    Program::CODE < addresses::lay_out(tables, sensors, &mut [], &mut [])
}

// The first of numbers 2 to 11 and 24 that applies to tables that have their shape, with its place.
pub fn tables_and_code(tables: &ProgramTables, program: Program) -> Result<(), Refused>
    requires { InShape tables.now }
    ensures { answer_of result ≡ tables_and_code_answer (tables_in tables.now program.start) }
{
    verdict::table_verdict(tables, program)?;
    answers::refused_where(code_long(tables), Refusal::Code)
}

// The verdict on a program: numbers 1 to 10 and 24, the first that applies, and the row that it names.
#![tactic(auto)]

ghost use Rattle.std.specs.Prelude.{◌≡◌, ℤ};
ghost use Rattle.theory.specs.Verdict.{first_refusal, rows_answer};
ghost use Rattle.cells.specs.Refusals.{copies_refused};
ghost use Rattle.answers.specs.Answers.{answer_of};
ghost use Rattle.program.specs.Tables.{tables_in};
ghost use Rattle.rules.specs.Shape.{InShape};
ghost use Rattle.rules.specs.Declared.{copy_tests};
ghost use Rattle.rules.specs.Verdict.{table_refusals, program_answer};
ghost use Rattle.verdict.specs.Parts.{declared_refusals, mode_refusals};

use answers::Refused;
use cells::limits::Program;
use cells::refusals::Refusal;
use cells::tables;
use cells::tables::ProgramTables;
use rules_1_2::{searches, slices};
use rules_3_5::{copies, guards, mode_ports, task_ports};
use rules_6_10::{invocations, switches, units, updates, whole};

// Number 4: the lowest guard that breaks it, and where none does the lowest copy.
fn guards_and_copies(tables: &ProgramTables) -> Result<(), Refused>
    requires { InShape tables.now }
    ensures { (start : ℤ) → answer_of result ≡ rows_answer copies_refused (copy_tests (tables_in tables.now start)) }
{
    let guard = guards::first_guard_wrong(tables);
    answers::refused_at(guard, Refusal::Copies, tables::DRIVERS)?;
    let copy = copies::first_copy_clash(tables);
    answers::refused_at(copy, Refusal::Copies, tables::COPIES)
}

// Numbers 2 to 5: what is declared, of tables in shape.
fn declared(tables: &ProgramTables, program: Program) -> Result<(), Refused>
    requires { InShape tables.now }
    ensures { answer_of result ≡ first_refusal declared_refusals (tables_in tables.now program.start) }
{
    searches::bad_field(tables, program)?;
    let task_port = task_ports::first_task_port_clash(tables);
    answers::refused_at(task_port, Refusal::TaskPorts, tables::TASK_PORTS)?;
    guards_and_copies(tables)?;
    let mode_port = mode_ports::first_mode_port_clash(tables);
    answers::refused_at(mode_port, Refusal::ModePorts, tables::MODE_PORTS)
}

// Numbers 6 to 10 and 24: what the modes do, of tables in shape.
fn modes(tables: &ProgramTables) -> Result<(), Refused>
    requires { InShape tables.now }
    ensures { (start : ℤ) → answer_of result ≡ first_refusal mode_refusals (tables_in tables.now start) }
{
    let invocation = invocations::first_wrong_invocation(tables);
    answers::refused_at(invocation, Refusal::Invocations, tables::INVOCATIONS)?;
    let update = updates::first_wrong_update(tables);
    answers::refused_at(update, Refusal::Updates, tables::UPDATES)?;
    let switch = switches::first_wrong_switch(tables);
    answers::refused_at(switch, Refusal::Switches, tables::SWITCHES)?;
    let mode = units::first_wrong_units(tables);
    answers::refused_at(mode, Refusal::Units, tables::MODES)?;
    let not_whole = whole::first_not_whole(tables);
    answers::refused_at(not_whole, Refusal::Whole, tables::SWITCHES)?;
    answers::refused_where(rules_24::has_gap(tables), Refusal::Gap)
}

// The first of numbers 2 to 10 and 24 that applies to tables in shape, with its place, as every call asks it after its own number 1.
pub fn table_verdict(tables: &ProgramTables, program: Program) -> Result<(), Refused>
    requires { InShape tables.now }
    ensures { answer_of result ≡ first_refusal table_refusals (tables_in tables.now program.start) }
{
    declared(tables, program)?;
    modes(tables)
}

// The verdict on a program, of any slices at all: the first of numbers 1 to 10 and 24 that applies, with its place, or accepted.
pub fn program_verdict(tables: &ProgramTables, program: Program) -> Result<(), Refused>
    ensures { answer_of result ≡ program_answer (tables_in tables.now program.start) }
{
    answers::refused_where(slices::shape_bad(tables), Refusal::Shape)?;
    table_verdict(tables, program)
}

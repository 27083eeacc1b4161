// E code of a block: what is due at one unit of a mode, in the order of document 01.
ghost use Rattle.std.specs.Prelude.{◌≡◌, ◌+◌, ◌≤◌, ◌<◌, ℤ};
ghost use Rattle.cells.specs.Cell.{rows_in, greatest_word};
ghost use Rattle.cells.specs.Limits.{max_ports, max_invocations, max_updates};
ghost use Rattle.program.specs.Tables.{tables_in, port_width, invocation_width, update_width};
ghost use Rattle.rules.specs.Shape.{InShape};
ghost use Rattle.layout.specs.Counts.{most_block};
ghost use Rattle.words.specs.Written.{written, writes};
ghost use Rattle.writing.specs.Switches.{Addresses};
ghost use Rattle.writing.specs.Block.{Aimed, head_in, body_in, end_in, parts_in};

use crate::{rows, sensors, switches};
use cells::tables::ProgramTables;
use code::opcode::Opcode;
use layout::counts::Instant;
use words::Instruction;

// The numbers in a block: where its first stub stands, the delay of its `future`, and the block of the next unit.
#[derive(Clone, Copy)]
pub struct Aim {
    pub stub: usize,
    pub ticks: usize,
    pub next: usize,
}

// What stands before the switch tests of a block is written: output copies of due tasks; due updates; all sensors.
fn head(
    code: &mut [u32],
    at: usize,
    ports: &[i32],
    invocations: &[i32],
    updates: &[i32],
    when: Instant,
) -> usize
    requires most_block_bound { at + most_block < greatest_word }
    requires ports_bound { rows_in port_width ports.now ≤ max_ports }
    requires invocations_bound { rows_in invocation_width invocations.now ≤ max_invocations }
    requires updates_bound { rows_in update_width updates.now ≤ max_updates }
    ensures { written code.new result ≡ writes (head_in ports.now invocations.now
        updates.now when) (written code.old at) }
{
    let updates_at = rows::outputs(code, at, invocations, when);
    let sensors_at = rows::updates(code, updates_at, updates, when);
    sensors::sensors(code, sensors_at, ports)
}

// What stands from the entry of a block to its `future` is written: due task drivers; their schedules.
fn body(code: &mut [u32], at: usize, invocations: &[i32], when: Instant) -> usize
    requires max_invocations_bound { at + max_invocations + max_invocations ≤ greatest_word }
    requires invocations_bound { rows_in invocation_width invocations.now ≤ max_invocations }
    ensures { written code.new result ≡ writes (body_in invocations.now when) (written code.old at) }
{
    let schedules_at = rows::drivers(code, at, invocations, when);
    rows::schedules(code, schedules_at, invocations, when)
}

// The end of a block before its stubs is written: `future` one unit, next unit's block; `return`.
fn end(code: &mut [u32], at: usize, aim: Aim) -> usize
    requires at_lt_greatest_word { at < greatest_word }
    requires aimed { Aimed aim }
    ensures { written code.new result ≡ writes (end_in aim) (written code.old at) }
{
    // `Aimed` says that both fit a word.
    let next = Instruction::new(Opcode::Future, aim.ticks as u32, aim.next as u32).write(code, at);
    Instruction::new(Opcode::Return, 0, 0).write(code, next)
}

// The parts of a block are written, one after the other. The address behind the block is returned.
pub fn parts(
    code: &mut [u32],
    at: usize,
    tables: &ProgramTables,
    entries: &[usize],
    when: Instant,
    aim: Aim,
) -> usize
    requires in_shape { InShape tables.now }
    requires addresses { Addresses entries.now }
    requires most_block_bound { at + most_block < greatest_word }
    requires aimed { Aimed aim }
    ensures { (start : ℤ) → let T = tables_in tables.now start in
        written code.new result ≡ writes (parts_in T entries.now when aim) (written code.old at) }
{
    let stub = aim.stub;
    let tests_at = head(
        code,
        at,
        tables.ports,
        tables.invocations,
        tables.updates,
        when,
    );
    let body_at = switches::tests(code, tests_at, tables.switches, when, stub);
    let end_at = body(code, body_at, tables.invocations, when);
    let stubs_at = end(code, end_at, aim);
    switches::stubs(code, stubs_at, tables.switches, when, entries)
}

// Slices of numbers and of words, and the ten tables of a program: as much of each as there is room for.
ghost use Rattle.std.specs.Prelude.{◌≤◌, length, IfOk};

use crate::error::CaseError;
use crate::numbers::Number;
use crate::stream::Source;
use crate::{numbers, room};
use cells::limits::Program;
use cells::parts::part;
use cells::tables::ProgramTables;
use cells::{table, tables};

// What was read of a program: its start mode, and how many numbers of each table were kept.
#[derive(Clone, Copy)]
pub struct Lengths {
    pub program: Program,
    pub len: [usize; Program::TABLES],
}

// Reads a slice: its length, then its numbers, of which as many are kept as there is room for.
pub fn slice<'a, T: Number>(source: &mut Source, out: &'a mut [T]) -> Result<&'a [T], CaseError>
    ensures { IfOk result (λ s. length s.now ≤ length out.old) }
{
    let n = numbers::count(source)?;
    for i in 0..n {
        let number = T::read(source)?;
        table::put(out, i, number);
    }
    Ok(part(out, 0, n))
}

// Reads a program: its start mode, then its ten tables, each into its place in the room.
pub fn program(source: &mut Source, room: &mut [i32]) -> Result<Lengths, CaseError> {
    let start = i32::read(source)?;
    let mut len = [0; Program::TABLES];
    let mut at = 0;
    for i in 0..Program::TABLES {
        let end = room::ENDS[i].min(room.len());
        let from = at.min(end);
        len[i] = slice(source, &mut room[from..end])?.len();
        at = end;
    }
    Ok(Lengths {
        program: Program { start },
        len,
    })
}

// The tables of a program that was read, as they lie in the room.
pub fn tables_in(l: Lengths, room: &[i32]) -> ProgramTables<'_> {
    ProgramTables {
        ports: part(room, room::PORTS_AT, l.len[tables::PORTS]),
        tasks: part(room, room::TASKS_AT, l.len[tables::TASKS]),
        task_ports: part(room, room::TASK_PORTS_AT, l.len[tables::TASK_PORTS]),
        drivers: part(room, room::DRIVERS_AT, l.len[tables::DRIVERS]),
        copies: part(room, room::COPIES_AT, l.len[tables::COPIES]),
        modes: part(room, room::MODES_AT, l.len[tables::MODES]),
        mode_ports: part(room, room::MODE_PORTS_AT, l.len[tables::MODE_PORTS]),
        invocations: part(room, room::INVOCATIONS_AT, l.len[tables::INVOCATIONS]),
        updates: part(room, room::UPDATES_AT, l.len[tables::UPDATES]),
        switches: part(room, room::SWITCHES_AT, l.len[tables::SWITCHES]),
    }
}

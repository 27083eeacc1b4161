// What the kinds of the machine read: a program, E code, joined schedule and state; and what is lent to a tick.
use cases::error::CaseError;
use cases::stream::Source;
use cases::tables;
use cases::tables::Lengths;
use machine::{Handed, State};

// A system that was read: its program, as it lies in a room, its E code and its joined schedule.
#[derive(Clone, Copy)]
pub struct System<'a> {
    lengths: Lengths,
    room: &'a [i32],
    code: &'a [u32],
    rows: &'a [i32],
}

// What is lent to a tick: readings, results and times.
#[derive(Clone, Copy)]
pub struct Lent<'a> {
    readings: &'a [i32],
    results: &'a [i32],
    times: &'a [i32],
}

// Reads a system: program, E code and joined schedule, each into its room.
pub fn read_system<'a>(
    source: &mut Source,
    room: &'a mut [i32],
    code: &'a mut [u32],
    rows: &'a mut [i32],
) -> Result<System<'a>, CaseError> {
    let lengths = tables::program(source, room)?;
    let code = tables::slice(source, code)?;
    let rows = tables::slice(source, rows)?;
    Ok(System {
        lengths,
        room,
        code,
        rows,
    })
}

// Reads what is lent to a tick, each with its length before it.
pub fn read_lent<'a>(
    source: &mut Source,
    readings: &'a mut [i32],
    results: &'a mut [i32],
    times: &'a mut [i32],
) -> Result<Lent<'a>, CaseError> {
    let readings = tables::slice(source, readings)?;
    let results = tables::slice(source, results)?;
    let times = tables::slice(source, times)?;
    Ok(Lent {
        readings,
        results,
        times,
    })
}

// The machine's answer on one tick of a system in a state, with what is lent to the tick.
pub fn advanced(system: System<'_>, state: State, lent: Lent<'_>) -> Handed {
    let lengths = system.lengths;
    operation::advance(
        &tables::tables_in(lengths, system.room),
        lengths.program,
        system.code,
        system.rows,
        state,
        lent.readings,
        lent.results,
        lent.times,
    )
}

// The kinds `advance` and `run`: a system a case, and what is lent to one tick or to each of so many; the answer and the state handed
// back a line, which is the next tick's.
use crate::systems::System;
use crate::{lines, systems};
use cases::error::CaseError;
use cases::stream::Source;
use cases::{numbers, room, states};
use machine::State;
use std::io::Stdout;

// Steps one tick: what is lent to it is read, and its line written; the state handed back.
fn tick(
    output: Stdout,
    source: &mut Source,
    system: System<'_>,
    state: State,
) -> Result<State, CaseError> {
    let mut readings = [0i32; room::BY_PORT];
    let mut results = [0i32; room::BY_PORT];
    let mut times = [0i32; room::BY_TASK];
    let lent = systems::read_lent(source, &mut readings, &mut results, &mut times)?;
    let handed = systems::advanced(system, state, lent);
    lines::line(output, handed)?;
    Ok(handed.state)
}

// Answers a case of so many ticks as are read behind its system.
fn case<F: FnOnce(&mut Source) -> Result<usize, CaseError>>(
    output: Stdout,
    source: &mut Source,
    ticks: F,
) -> Result<(), CaseError>
    requires { F.IsAlwaysCallable ticks }
{
    let mut room = [0i32; room::ALL];
    let mut code = [0u32; room::CODE];
    let mut rows = [0i32; room::SCHEDULE];
    let system = systems::read_system(source, &mut room, &mut code, &mut rows)?;
    let mut state = states::state(source)?;
    for _ in 0..ticks(source)? {
        state = tick(output, source, system, state)?;
    }
    Ok(())
}

// Answers a case of the kind `advance`, of one tick.
pub fn advance(output: Stdout, source: &mut Source) -> Result<(), CaseError> {
    case(output, source, |_| Ok(1))
}

// Answers a case of the kind `run`, of as many ticks as it says.
pub fn run(output: Stdout, source: &mut Source) -> Result<(), CaseError> {
    case(output, source, numbers::count)
}

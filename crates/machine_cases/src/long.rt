// The kind `long`: a system a case, how many ticks, and what is lent to all of them alike; the answer and the state after the last, or
// at the first refusal, a line.
use crate::systems::{Lent, System};
use crate::{lines, systems};
use cases::error::CaseError;
use cases::stream::Source;
use cases::{numbers, room, states};
use cells::refusals;
use machine::{Handed, State};
use std::io::Stdout;

// Steps so many ticks of a system, all lent the same, up to the first that is refused.
fn ticks(n: usize, system: System<'_>, state: State, lent: Lent<'_>) -> Handed {
    let answer = answers::answer(Ok(()));
    let mut at = Handed { answer, state };
    for _ in 0..n {
        at = systems::advanced(system, at.state, lent);
        // An advance answers in numbers.
        if at.answer.number != refusals::ACCEPTED {
            return at;
        }
    }
    at
}

// Answers a case of the kind `long`.
pub fn case(output: Stdout, source: &mut Source) -> Result<(), CaseError> {
    let mut room = [0i32; room::ALL];
    let mut code = [0u32; room::CODE];
    let mut rows = [0i32; room::SCHEDULE];
    let mut readings = [0i32; room::BY_PORT];
    let mut results = [0i32; room::BY_PORT];
    let mut times = [0i32; room::BY_TASK];
    let system = systems::read_system(source, &mut room, &mut code, &mut rows)?;
    let state = states::state(source)?;
    let n = numbers::count(source)?;
    let lent = systems::read_lent(source, &mut readings, &mut results, &mut times)?;
    lines::line(output, ticks(n, system, state, lent))?;
    Ok(())
}

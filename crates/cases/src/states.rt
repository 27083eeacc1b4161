// A state of the machine out of numbers.
use crate::error::CaseError;
use crate::numbers;
use crate::numbers::Number;
use crate::stream::Source;
use cells::limits::Program;
use machine::State;

// Reads a state: port values, local outputs, time stamp, pending and current address, elapsed and remaining ticks, remaining times by
// task, positions by supplier.
pub fn state(source: &mut Source) -> Result<State, CaseError> {
    let mut ports = [0; Program::PORTS];
    let mut outputs = [0; Program::PORTS];
    let mut left = [0; Program::TASKS];
    let mut positions = [0; Program::SUPPLIERS];
    numbers::fill(source, &mut ports)?;
    numbers::fill(source, &mut outputs)?;
    let time = u32::read(source)?;
    let pending = usize::read(source)?;
    let current = usize::read(source)?;
    let elapsed = usize::read(source)?;
    let remaining = usize::read(source)?;
    numbers::fill(source, &mut left)?;
    numbers::fill(source, &mut positions)?;
    Ok(State {
        ports,
        outputs,
        time,
        pending,
        current,
        elapsed,
        remaining,
        left,
        positions,
    })
}

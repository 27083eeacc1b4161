// An answer and the state handed back, as a line.
use cases::out;
use machine::{Handed, State};
use std::fmt::Display;
use std::io;
use std::io::Stdout;

// Prints numbers, each after a space.
fn each<D: Display + Copy>(output: Stdout, all: &[D]) -> io::Result<()> {
    for n in all {
        out::after_space(output, *n)?;
    }
    Ok(())
}

// Prints the moment of a state: time stamp, the two addresses, elapsed and remaining ticks.
fn moment(output: Stdout, s: State) -> io::Result<()> {
    out::after_space(output, s.time)?;
    out::after_space(output, s.pending)?;
    out::after_space(output, s.current)?;
    out::after_space(output, s.elapsed)?;
    out::after_space(output, s.remaining)
}

// Prints an answer and the state handed back with it, on a line.
pub fn line(output: Stdout, a: Handed) -> io::Result<()> {
    let state = a.state;
    out::answer(output, a.answer)?;
    each(output, &state.ports)?;
    each(output, &state.outputs)?;
    moment(output, state)?;
    each(output, &state.left)?;
    each(output, &state.positions)?;
    out::line_end(output)
}

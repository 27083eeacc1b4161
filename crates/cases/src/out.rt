// Lines that are printed.
use std::fmt::Display;
use std::io;
use std::io::Stdout;
use theory::Answer;

// Prints a number after a space.
pub fn after_space<D: Display + Drop>(output: Stdout, n: D) -> io::Result<()> {
    print!(output; " {n}")
}

// Prints the end of a line.
pub fn line_end(output: Stdout) -> io::Result<()> {
    output.println("")
}

// Prints an answer: its number, then its place, two numbers each after a space.
pub fn answer(output: Stdout, x: Answer) -> io::Result<()> {
    print!(output; "{} {} {}", x.number, x.outer, x.inner)
}

// Prints an answer on a line of its own.
pub fn answer_line(output: Stdout, x: Answer) -> io::Result<()> {
    answer(output, x)?;
    line_end(output)
}

// Prints on a line what is to be said of a file, and its name, which need not be text.
pub fn say(output: Stdout, what: &str, name: &[u8]) -> io::Result<()> {
    output.print(what)?;
    output.write_all(name)?;
    line_end(output)
}

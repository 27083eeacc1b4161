// The kind `compile`: a program and how many words are lent a case; its answer, length and the words written a line.
use cases::error::CaseError;
use cases::stream::Source;
use cases::{numbers, out, room, tables};
use cells::parts::words;
use std::io::Stdout;

// How many words can be lent to a compilation at most; no listing needs as many.
const LENT: usize = room::CODE;

// Answers a case of the kind `compile`.
pub fn case(output: Stdout, source: &mut Source) -> Result<(), CaseError> {
    let mut room = [0i32; room::ALL];
    let mut code = [0u32; LENT];
    let l = tables::program(source, &mut room)?;
    let lent = numbers::count(source)?.min(code.len());
    let made = compiler::compile(&tables::tables_in(l, &room), l.program, &mut code[..lent]);
    out::answer(output, answers::answer(made.map(|_| ())))?;
    let length = made.unwrap_or(0);
    out::after_space(output, length)?;
    for word in words(&code, length) {
        out::after_space(output, *word)?;
    }
    out::line_end(output)?;
    Ok(())
}

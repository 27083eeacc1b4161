// The kinds `verdict` and `fresh`: a program a case; its answer, or its answer and the fresh state, a line.
use crate::lines;
use cases::error::CaseError;
use cases::stream::Source;
use cases::{out, room, tables};
use std::io::Stdout;

// Answers a case of the kind `verdict`.
pub fn verdict(output: Stdout, source: &mut Source) -> Result<(), CaseError> {
    let mut room = [0i32; room::ALL];
    let l = tables::program(source, &mut room)?;
    let outcome = verdict::program_verdict(&tables::tables_in(l, &room), l.program);
    out::answer_line(output, answers::answer(outcome))?;
    Ok(())
}

// Answers a case of the kind `fresh`.
pub fn fresh(output: Stdout, source: &mut Source) -> Result<(), CaseError> {
    let mut room = [0i32; room::ALL];
    let l = tables::program(source, &mut room)?;
    let handed = operation::fresh(&tables::tables_in(l, &room), l.program);
    lines::line(output, handed)?;
    Ok(())
}

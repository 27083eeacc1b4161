// The kind `windows`: a program and its windows a case, the answer a line.
use cases::error::CaseError;
use cases::stream::Source;
use cases::{out, room, tables};
use std::io::Stdout;

// Answers a case of the kind `windows`.
pub fn case(output: Stdout, source: &mut Source) -> Result<(), CaseError> {
    let mut room = [0i32; room::ALL];
    let mut windows = [0i32; room::WINDOWS];
    let l = tables::program(source, &mut room)?;
    let windows = tables::slice(source, &mut windows)?;
    let outcome = acceptance::windows_verdict(&tables::tables_in(l, &room), l.program, windows);
    out::answer_line(output, answers::answer(outcome))?;
    Ok(())
}

// The kind `supplier`: a program, its windows, a part of the schedule and a supplier a case; the answer a line.
use cases::error::CaseError;
use cases::numbers::Number;
use cases::stream::Source;
use cases::{out, room, tables};
use std::io::Stdout;

// Answers a case of the kind `supplier`.
pub fn case(output: Stdout, source: &mut Source) -> Result<(), CaseError> {
    let mut room = [0i32; room::ALL];
    let mut windows = [0i32; room::WINDOWS];
    let mut rows = [0i32; room::PART];
    let l = tables::program(source, &mut room)?;
    let windows = tables::slice(source, &mut windows)?;
    let rows = tables::slice(source, &mut rows)?;
    let supplier = i32::read(source)?;
    let all = tables::tables_in(l, &room);
    let outcome = acceptance::supplier_verdict(&all, l.program, windows, rows, supplier);
    out::answer_line(output, answers::answer(outcome))?;
    Ok(())
}

// E code for the rows of a table: an instruction for each row that is due.
ghost use Rattle.std.specs.Prelude.{◌≡◌, ◌+◌, ◌<◌, ◌≤◌, ℕ, Bool};
ghost use Rattle.theory.specs.Lists.{those};
ghost use Rattle.theory.specs.Search.{Tests};
ghost use Rattle.cells.specs.Cell.{Column, rows_in, greatest_word};
ghost use Rattle.program.specs.Tables.{frequency_column, invocation_width, update_width};
ghost use Rattle.words.specs.Written.{Words, written, writes};
ghost use Rattle.writing.specs.Rows.{Makes, due_at, outputs_in, updates_in, drivers_in, schedules_in};

use cells::columns::{invocation, update};
use cells::kinds::{Driver, Task};
use cells::table;
use layout::counts::Instant;
use program::due;
use words::Instruction;

// The instruction of each row below n that passes the test is written, in order. The next address is returned.
pub(crate) fn passing<T: Fn(usize) -> bool, R: Fn(usize) -> Instruction>(
    code: &mut [u32],
    at: usize,
    n: usize,
    test: T,
    row: R,
) -> usize
    requires fits { at + n ≤ greatest_word }
    requires tested { (k : ℕ) → k < n → T.pre test k }
    requires made { (k : ℕ) → k < n → R.pre row k }
    ensures { (p : ℕ → Bool) → (words : ℕ → Words) → Tests (T.post test) n p → Makes (R.post row) n words
        → written code.new result ≡ writes (those p words n 0) (written code.old at) }
{
    let mut next = at;
    for k in 0..n {
        if test(k) {
            next = row(k).write(code, next);
        }
    }
    next
}

// The instruction of each row of a table that is due at this unit is written, in table order. The next address is returned.
fn due<R: Fn(usize) -> Instruction>(
    code: &mut [u32],
    at: usize,
    t: &[i32],
    width: usize,
    when: Instant,
    row: R,
) -> usize
    requires column { Column width frequency_column }
    requires fits { at + rows_in width t.now ≤ greatest_word }
    requires made { (k : ℕ) → k < rows_in width t.now → R.pre row k }
    ensures { (words : ℕ → Words) → Makes (R.post row) (rows_in width t.now) words
        → written code.new result ≡ writes (due_at width t.now when words) (written code.old at) }
{
    passing(
        code,
        at,
        t.len() / width,
        |k| due::row_due(t, width, when.mode, when.units, when.unit, k),
        row,
    )
}

// The output copies of the due tasks are written. The next address is returned.
pub fn outputs(code: &mut [u32], at: usize, invocations: &[i32], when: Instant) -> usize
    requires { at + rows_in invocation_width invocations.now ≤ greatest_word }
    ensures { written code.new result ≡ writes (outputs_in invocations.now when) (written code.old at) }
{
    due(code, at, invocations, invocation::WIDTH, when, |k| {
        let ended: Task = table::named(invocations, invocation::WIDTH, k, invocation::TASK);
        Instruction::output_call(ended)
    })
}

// The drivers of the due updates are written. The next address is returned.
pub fn updates(code: &mut [u32], at: usize, updates: &[i32], when: Instant) -> usize
    requires { at + rows_in update_width updates.now ≤ greatest_word }
    ensures { written code.new result ≡ writes (updates_in updates.now when) (written code.old at) }
{
    due(code, at, updates, update::WIDTH, when, |k| {
        let driver: Driver = table::named(updates, update::WIDTH, k, update::DRIVER);
        Instruction::driver_call(driver)
    })
}

// The drivers of the due tasks are written. The next address is returned.
pub fn drivers(code: &mut [u32], at: usize, invocations: &[i32], when: Instant) -> usize
    requires { at + rows_in invocation_width invocations.now ≤ greatest_word }
    ensures { written code.new result ≡ writes (drivers_in invocations.now when) (written code.old at) }
{
    due(code, at, invocations, invocation::WIDTH, when, |k| {
        let driver: Driver = table::named(invocations, invocation::WIDTH, k, invocation::DRIVER);
        Instruction::driver_call(driver)
    })
}

// The schedules of the due tasks are written. The next address is returned.
pub fn schedules(code: &mut [u32], at: usize, invocations: &[i32], when: Instant) -> usize
    requires { at + rows_in invocation_width invocations.now ≤ greatest_word }
    ensures { written code.new result ≡ writes (schedules_in invocations.now when) (written code.old at) }
{
    due(code, at, invocations, invocation::WIDTH, when, |k| {
        let released: Task = table::named(invocations, invocation::WIDTH, k, invocation::TASK);
        Instruction::schedule(released)
    })
}

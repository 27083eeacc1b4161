// E code for the switches of a mode that are due at a unit: their tests, and the stubs to which these go.
ghost use Rattle.std.specs.Prelude.{◌≡◌, [], ◌∷◌, map, ◌+◌, ◌*◌, ◌≤◌, ◌<◌};
ghost use Rattle.theory.specs.Lists.{those};
ghost use Rattle.cells.specs.Cell.{rows_in, greatest_word};
ghost use Rattle.program.specs.Tables.{switch_width};
ghost use Rattle.code.specs.Op.{jump};
ghost use Rattle.code.specs.Listing.{call_driver, tests_of};
ghost use Rattle.words.specs.Written.{three, written, writes};
ghost use Rattle.writing.specs.Rows.{is_due};
ghost use Rattle.writing.specs.Switches.{switch_in, switches_in, stubs_in, Addresses};

use cells::columns::switch;
use cells::kinds::{Driver, Mode};
use cells::{modes, table};
use code::opcode::Opcode;
use layout::counts::Instant;
use program::due;
use words::Instruction;

// The test of row i is written if the row is due: `if driver stub`. The next address is returned.
fn test_row(
    code: &mut [u32],
    at: usize,
    switches: &[i32],
    when: Instant,
    stub: usize,
    i: usize,
) -> usize
    requires at_le_greatest_word { at ≤ greatest_word }
    requires stub_le_greatest_word { stub ≤ greatest_word }
    ensures { written code.new result ≡ writes (map three (tests_of (those (is_due switch_width switches.now when)
        (switch_in switches.now) 1 i) stub)) (written code.old at) }
{
    if due::row_due(switches, switch::WIDTH, when.mode, when.units, when.unit, i) {
        let driver: Driver = table::named(switches, switch::WIDTH, i, switch::DRIVER);
        return Instruction::test(driver, stub).write(code, at);
    }
    at
}

// (Not by `rows::passing`: a test names a place that counts the tests before it, and a stub has two instructions.)
// The tests of the due rows are written, in table order; the first stub stands at `stub`, and each has two instructions.
pub fn tests(code: &mut [u32], at: usize, switches: &[i32], when: Instant, stub: usize) -> usize
    requires switches_bound { at + rows_in switch_width switches.now ≤ greatest_word }
    requires switches_bound_2 { stub + 2 * rows_in switch_width switches.now ≤ greatest_word }
    ensures { written code.new result ≡ writes (map three (tests_of (switches_in switches.now when) stub))
        (written code.old at) }
{
    let mut next = at;
    for i in 0..switches.len() / switch::WIDTH {
        next = test_row(code, next, switches, when, stub + 2 * (next - at), i);
    }
    next
}

// A stub is written: `call driver`, `jump` to an address. The next address is returned.
fn stub(code: &mut [u32], at: usize, driver: Driver, to: usize) -> usize
    requires at_lt_greatest_word { at < greatest_word }
    requires to_le_greatest_word { to ≤ greatest_word }
    ensures { written code.new result ≡ writes (map three (call_driver driver.0 ∷ jump to ∷ [])) (written
        code.old at) }
{
    let next = Instruction::driver_call(driver).write(code, at);
    // The address fits a word: the premise says so.
    Instruction::new(Opcode::Jump, to as u32, 0).write(code, next)
}

// The stub of row i is written if the row is due. The next address is returned.
fn stub_row(
    code: &mut [u32],
    at: usize,
    switches: &[i32],
    when: Instant,
    entries: &[usize],
    i: usize,
) -> usize
    requires at_lt_greatest_word { at < greatest_word }
    requires addresses { Addresses entries.now }
    ensures { written code.new result ≡ writes (map three (stubs_in entries.now (those (is_due switch_width
        switches.now when) (switch_in switches.now) 1 i))) (written code.old at) }
{
    if due::row_due(switches, switch::WIDTH, when.mode, when.units, when.unit, i) {
        let driver: Driver = table::named(switches, switch::WIDTH, i, switch::DRIVER);
        let target: Mode = table::named(switches, switch::WIDTH, i, switch::TARGET);
        return stub(code, at, driver, modes::number(entries, target));
    }
    at
}

// The stubs of the due rows are written, in table order. The next address is returned.
pub fn stubs(
    code: &mut [u32],
    at: usize,
    switches: &[i32],
    when: Instant,
    entries: &[usize],
) -> usize
    requires switches_bound { at + 2 * rows_in switch_width switches.now < greatest_word }
    requires addresses { Addresses entries.now }
    ensures { written code.new result ≡ writes (map three (stubs_in entries.now (switches_in
        switches.now when))) (written code.old at) }
{
    let mut next = at;
    for i in 0..switches.len() / switch::WIDTH {
        next = stub_row(code, next, switches, when, entries, i);
    }
    next
}

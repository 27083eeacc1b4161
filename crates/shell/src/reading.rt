// The input, read piece by piece until it ends or is decided.
ghost use Rattle.std.specs.Prelude.{◌≡◌, false};
ghost use Rattle.intake.specs.Line.{fed};
ghost use Rattle.intake.specs.Exact.{Roomy};
ghost use Rattle.shell.specs.Reading.{brought, hearing, heard_as, after_read, AfterSome};

use intake::state::Intake;
use std::io::Read;
use std::ops::ControlFlow;

// What is known after a read that brought so many bytes, and whether the program reads on. One that failed leaves the text bad, since what
// is missing of it is not known; no byte is its end; else it is read on unless the text is decided.
fn took(
    i: Intake,
    got: Option<usize>,
    buffer: &[u8],
    room: &mut [i32],
) -> ControlFlow<Intake, Intake>
    ensures { heard_as result room.new ≡ after_read (fed i room.old) (brought got buffer.now) }
{
    if got.is_none() {
        return ControlFlow::Break(i.as_bad());
    }
    let n = streams::count(got, buffer);
    if n == 0 {
        let last = i.ended(room);
        return ControlFlow::Break(last);
    }
    let intake = i.feed_all(&buffer[..n], room);
    if intake.decided() {
        return ControlFlow::Break(intake);
    }
    ControlFlow::Continue(intake)
}

// What is known of the text after the whole input. An input of more pieces than can be counted is as one that fails.
pub fn heard<R: Read>(input: &mut R, buffer: &mut [u8], room: &mut [i32]) -> Intake
    requires { Roomy room.old }
    ensures { AfterSome room.old (hearing (fed result room.new) false) }
{
    let mut intake = Intake::new();
    for _ in 0..u64::MAX {
        let got = streams::read_some(input, buffer).ok();
        match took(intake, got, buffer, room) {
            ControlFlow::Continue(next) => intake = next,
            ControlFlow::Break(last) => return last,
        }
    }
    intake.as_bad()
}

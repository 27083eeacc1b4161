// One whole line of the text: the start mode, a count, or a number of a table.
ghost use Rattle.std.specs.Prelude.{◌<◌, ◌≡◌};
ghost use Rattle.cells.specs.Limits.{table_count};
ghost use Rattle.intake.specs.Change.{with_start, with_table};
ghost use Rattle.intake.specs.Line.{fed, stored_of, counted_of, took_of};

use crate::shape;
use crate::state::{Intake, Span};
use cells::limits::Program;
use cells::table;

// What is known of the text after its first line, which says the start mode.
fn begun(i: Intake, z: i32) -> Intake
    ensures { result ≡ with_start i z }
{
    Intake {
        start: Some(z),
        ..i
    }
}

// A number of the latest table is put at the next free place of the room. Where there is none, the text is refused.
#[tactic(auto, unfolding(crate::specs::Line::stored_of))]
fn stored(i: Intake, z: i32, room: &mut [i32]) -> Intake
    requires { 0 < i.left }
    ensures { fed result room.new ≡ stored_of (fed i room.old) z }
{
    if i.at < room.len() {
        room[i.at] = z;
        return Intake {
            at: i.at + 1,
            left: i.left - 1,
            ..i
        };
    }
    i.as_bad()
}

// The next table has so many numbers, and begins at the next free place.
fn opened(mut i: Intake, numbers: usize) -> Intake
    requires { i.table < table_count }
    ensures { result ≡ with_table i numbers }
{
    i.spans[i.table] = Span {
        from: i.at,
        len: numbers,
    };
    i.table += 1;
    i.left = numbers;
    i
}

// What is known of the text after the row count of the next table. Nothing may follow the last table.
fn counted(i: Intake, z: i32) -> Intake
    ensures { result ≡ counted_of i z }
{
    let k = i.table;
    if Program::TABLES <= k {
        return i.as_bad();
    }
    let rows = table::index(z);
    if rows <= shape::limit(k) {
        return opened(i, rows * shape::width(k));
    }
    i.as_too_many()
}

impl Intake {
    // What is known of the text after a whole line. What is decided stays.
    #[tactic(auto, unfolding(crate::specs::Line::took_of, crate::specs::Line::is_decided))]
    pub fn took(self, number: Option<i32>, room: &mut [i32]) -> Intake
        ensures { fed result room.new ≡ took_of (fed self room.old) number }
    {
        if self.decided() {
            return self;
        }
        match number {
            None => self.as_bad(),
            Some(z) if self.start.is_none() => begun(self, z),
            Some(z) if 0 < self.left => stored(self, z, room),
            Some(z) => counted(self, z),
        }
    }
}

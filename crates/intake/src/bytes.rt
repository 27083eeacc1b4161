// The bytes of the text, one after the other: where the input is cut does not matter.
ghost use Rattle.std.specs.Prelude.{◌≡◌};
ghost use Rattle.intake.specs.Line.{fed};
ghost use Rattle.intake.specs.Bytes.{line_end, fed_of, fed_all, ended_of};

use crate::state::Intake;
use text::number::Part;

// What is known of the text after the end of a line: its number is taken, and a new line begins.
#[tactic(auto, unfolding(crate::specs::Bytes::line_end))]
fn line_end(i: Intake, room: &mut [i32]) -> Intake
    ensures { fed result room.new ≡ line_end (fed i room.old) }
{
    let taken = i.took(i.part.signed(), room);
    Intake {
        part: Part::Start,
        ..taken
    }
}

impl Intake {
    // What is known of the text after one byte more: a line end, or a byte of the line.
    #[tactic(auto, unfolding(crate::specs::Bytes::fed_of))]
    pub fn feed(self, b: u8, room: &mut [i32]) -> Intake
        ensures { fed result room.new ≡ fed_of (fed self room.old) b }
    {
        if b == b'\n' {
            return line_end(self, room);
        }
        let part = self.part.feed(b);
        Intake { part, ..self }
    }

    // What is known of the text after all of these bytes.
    pub fn feed_all(self, bytes: &[u8], room: &mut [i32]) -> Intake
        ensures { fed result room.new ≡ fed_all (fed self room.old) bytes.now }
    {
        let mut next = self;
        for b in bytes {
            next = next.feed(*b, room);
        }
        next
    }

    // What is known of the text after the end of the input: the last line end may be missing.
    #[tactic(auto, unfolding(crate::specs::Bytes::ended_of))]
    pub fn ended(self, room: &mut [i32]) -> Intake
        ensures { fed result room.new ≡ ended_of (fed self room.old) }
    {
        match self.part {
            Part::Start => self,
            Part::Minus | Part::Digits { .. } | Part::Bad => line_end(self, room),
        }
    }
}

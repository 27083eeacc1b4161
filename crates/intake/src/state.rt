// What is known of a text after some of its bytes; the numbers of its tables lie in a lent room, one after the other.
ghost use Rattle.std.specs.Prelude.{◌≡◌, List, ℤ};
ghost use Rattle.intake.specs.Change.{start_intake, as_bad, as_too_many};
ghost use Rattle.intake.specs.Line.{fed, is_decided};
ghost use Rattle.intake.specs.Heard.{heard, heard_as};

use cells::limits::Program;
use text::number::Part;

// Why a text says no program; the first reason stays, but a row count out of its limit takes the place of another.
#[derive(Clone, Copy, Debug, PartialEq, Eq)]
pub enum Wrong {
    // A line is no number, is missing, or follows the last row.
    Bad,
    // A row count is out of its limit.
    TooMany,
}

// Where a table lies in the room: so many numbers from a place on.
#[derive(Clone, Copy)]
pub struct Span {
    pub from: usize,
    pub len: usize,
}

// What is known of a text after some of its bytes.
#[derive(Clone, Copy)]
pub struct Intake {
    // What was read of the line that is being read.
    pub part: Part,
    // Why the text says no program, where that is known: it decides.
    pub wrong: Option<Wrong>,
    // The start mode, once it was read.
    pub start: Option<i32>,
    // Of so many tables the row count was read.
    pub table: usize,
    // So many numbers of the latest table are still to come.
    pub left: usize,
    // The next free place of the room.
    pub at: usize,
    // Where each table lies in the room.
    pub spans: [Span; Program::TABLES],
}

impl Intake {
    // What is known of a text of which nothing was read yet.
    pub fn new() -> Intake
        ensures { result ≡ start_intake }
    {
        Intake {
            part: Part::Start,
            wrong: None,
            start: None,
            table: 0,
            left: 0,
            at: 0,
            spans: [Span { from: 0, len: 0 }; Program::TABLES],
        }
    }

    // The text is decided: more bytes change nothing, so a caller may stop reading.
    #[tactic(auto, unfolding(crate::specs::Line::is_decided))]
    pub fn decided(self) -> bool
        ensures { result ≡ is_decided self }
    {
        self.wrong.is_some()
    }

    // The program that the text says, whose tables lie in the room, if its last row was read and nothing after it; else why it says none.
    #[tactic(auto, unfolding(crate::specs::Heard::heard, crate::specs::Line::is_complete))]
    pub fn program(self) -> Result<Program, Wrong>
        ensures { (room : List ℤ) → heard (fed self room) ≡ heard_as (fed self room) result }
    {
        if let Some(wrong) = self.wrong {
            return Err(wrong);
        }
        let start = self.start.ok_or(Wrong::Bad)?;
        if (self.table == Program::TABLES) & (self.left == 0) {
            return Ok(Program { start });
        }
        Err(Wrong::Bad)
    }

    // What is known of the text where it is bad, unless another reason was known.
    pub fn as_bad(self) -> Intake
        ensures { result ≡ as_bad self }
    {
        let wrong = self.wrong.or(Some(Wrong::Bad));
        Intake { wrong, ..self }
    }

    // What is known of the text where a row count is out of its limit.
    pub fn as_too_many(self) -> Intake
        ensures { result ≡ as_too_many self }
    {
        Intake {
            wrong: Some(Wrong::TooMany),
            ..self
        }
    }
}

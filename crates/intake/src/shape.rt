// The ten tables in the order in which a text has them: how many numbers a row has, most rows, and the room for all.
ghost use Rattle.std.specs.Prelude.{◌≡◌};
ghost use Rattle.intake.specs.Shapes.{shape_at};
ghost use Rattle.intake.specs.Exact.{empty_room, Roomy};

use cells::columns::{
    copy, driver, invocation, mode, mode_port, port, switch, task, task_port, update,
};
use cells::limits::Program;
use cells::{table, tables};

// How many numbers all ten tables have, each with its most rows: a room of so many never is too short.
pub const ROOM: usize = Program::PORTS * port::WIDTH
    + Program::TASKS * task::WIDTH
    + Program::TASK_PORTS * task_port::WIDTH
    + Program::DRIVERS * driver::WIDTH
    + Program::COPIES * copy::WIDTH
    + Program::MODES * mode::WIDTH
    + Program::MODE_PORTS * mode_port::WIDTH
    + Program::INVOCATIONS * invocation::WIDTH
    + Program::UPDATES * update::WIDTH
    + Program::SWITCHES * switch::WIDTH;

// How many numbers a row of a table has; past the last table 0.
#[tactic(auto, unfolding(crate::specs::Shapes::shape_at))]
pub fn width(place: usize) -> usize
    ensures { result ≡ (shape_at place).width }
{
    table::at(&tables::WIDTHS, place, 0)
}

// The most rows of a table; past the last table 0.
#[tactic(auto, unfolding(crate::specs::Shapes::shape_at))]
pub fn limit(place: usize) -> usize
    ensures { result ≡ (shape_at place).limit }
{
    table::at(&tables::LIMITS, place, 0)
}

// A room for the largest program, all 0.
pub fn empty_room() -> [i32; ROOM]
    ensures { (result ≡ empty_room) × Roomy result }
{
    [0i32; ROOM]
}

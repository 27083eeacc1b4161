// The refusals of document 01 by name, and their numbers; docs/NUMBERS.md says of each what it means.
ghost use Rattle.cells.specs.Refusals.{number_of};
ghost use Rattle.std.specs.Prelude.{◌≡◌};

// The number of acceptance: no refusal.
pub const ACCEPTED: usize = 0;

#[derive(Clone, Copy, Debug, PartialEq, Eq)]
pub enum Refusal {
    // A lent slice is not whole rows, exceeds its limit, or there is no mode.
    Shape,
    // A field of the tables, or the start mode, is out of range or names nothing.
    Fields,
    // A task port row repeats, names a sensor or actuator, or one input port serves two tasks.
    TaskPorts,
    // One driver has two copies to one destination.
    Copies,
    // A mode port row repeats or names no output port.
    ModePorts,
    // An invocation breaks a rule.
    Invocations,
    // An update breaks a rule.
    Updates,
    // A switch breaks a rule.
    Switches,
    // A mode's units are too many, or do not divide its period.
    Units,
    // A task's frequency over a switch's is not whole.
    Whole,
    // The E code exceeds its limit or the lent slice.
    Code,
    // A window is out of range, or two share a tick.
    Windows,
    // A schedule row is out of range, out of order or not the supplier's own.
    Schedule,
    // A supplier runs outside its windows.
    Outside,
    // A task is unfinished at its termination.
    Late,
    // The execution time lent for a task being released is out of range.
    Time,
    // A task that is ended or released is still running.
    Overrun,
    // Two suppliers run in one tick.
    Collision,
    // The E code is faulty.
    Faulty,
    // An instant runs more instructions than the E code has.
    Count,
    // The state is out of range.
    State,
    // A mode's switches look at a sensor, and none of them is for its missing reading alone; tested after 10.
    Gap,
}

impl From<Refusal> for usize {
    ghost from_gives = { λ refusal number. number ≡ number_of refusal };

    fn from(refusal: Refusal) -> usize {
        match refusal {
            Refusal::Shape => 1,
            Refusal::Fields => 2,
            Refusal::TaskPorts => 3,
            Refusal::Copies => 4,
            Refusal::ModePorts => 5,
            Refusal::Invocations => 6,
            Refusal::Updates => 7,
            Refusal::Switches => 8,
            Refusal::Units => 9,
            Refusal::Whole => 10,
            Refusal::Code => 11,
            Refusal::Windows => 12,
            Refusal::Schedule => 13,
            Refusal::Outside => 14,
            Refusal::Late => 15,
            Refusal::Time => 16,
            Refusal::Overrun => 17,
            Refusal::Collision => 18,
            Refusal::Faulty => 19,
            Refusal::Count => 20,
            Refusal::State => 21,
            Refusal::Gap => 24,
        }
    }
}

// The composed machine: its state, and what an instant, a tick and an advance hand on. What they come to is in specs/.
#![tactic(auto)]

use cells::kinds::Task;
use cells::limits::Program;
use theory::Answer;

// The state of the machine: port values, local outputs, time stamp, pending address, current `future` address, elapsed and
// remaining ticks of the unit, remaining time by task, position by supplier (rows of its block passed).
#[derive(Clone, Copy)]
pub struct State {
    pub ports: [i32; Program::PORTS],
    pub outputs: [i32; Program::PORTS],
    pub time: u32,
    pub pending: usize,
    pub current: usize,
    pub elapsed: usize,
    pub remaining: usize,
    pub left: [usize; Program::TASKS],
    pub positions: [usize; Program::SUPPLIERS],
}

// What a call on the machine answers: number and place, and the state handed back, which is as before on a refusal.
#[derive(Clone, Copy)]
pub struct Handed {
    pub answer: Answer,
    pub state: State,
}

// The machine within an instant: the next address, whether a `future` was executed, the state so far.
#[derive(Clone, Copy)]
pub struct At {
    pub address: usize,
    // A flag of 01's state, in which a second `future` is faulty: it is no outcome of a call.
    pub planned: bool,
    pub state: State,
}

// Who runs in a tick: nobody, one task, or tasks of several suppliers.
#[derive(Clone, Copy)]
pub enum Running {
    Nobody,
    One(Task),
    Several,
}

// What a tick of all suppliers comes to: who runs, and the new positions.
#[derive(Clone, Copy)]
pub struct Shares {
    pub running: Running,
    pub positions: [usize; Program::SUPPLIERS],
}

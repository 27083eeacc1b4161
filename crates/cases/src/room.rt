// How many numbers there is room for of each table: one row more than its limit. A longer slice is cut to that, and is
// number 1 either way (proofs/Cut).
use cells::columns::{
    copy, driver, invocation, mode, mode_port, port, schedule, switch, task, task_port, update,
    window,
};
use cells::limits::Program;

pub const PORTS: usize = (Program::PORTS + 1) * port::WIDTH;

pub const TASKS: usize = (Program::TASKS + 1) * task::WIDTH;

pub const TASK_PORTS: usize = (Program::TASK_PORTS + 1) * task_port::WIDTH;

pub const DRIVERS: usize = (Program::DRIVERS + 1) * driver::WIDTH;

pub const COPIES: usize = (Program::COPIES + 1) * copy::WIDTH;

pub const MODES: usize = (Program::MODES + 1) * mode::WIDTH;

pub const MODE_PORTS: usize = (Program::MODE_PORTS + 1) * mode_port::WIDTH;

pub const INVOCATIONS: usize = (Program::INVOCATIONS + 1) * invocation::WIDTH;

pub const UPDATES: usize = (Program::UPDATES + 1) * update::WIDTH;

pub const SWITCHES: usize = (Program::SWITCHES + 1) * switch::WIDTH;

pub const WINDOWS: usize = (Program::WINDOWS + 1) * window::WIDTH;

pub const PART: usize = (Program::PART + 1) * schedule::WIDTH;

pub const SCHEDULE: usize = (Program::SCHEDULE + 1) * schedule::WIDTH;

pub const CODE: usize = (Program::CODE + 1) * Program::WORDS;

// How many numbers there is room for of what is lent to a tick: by port (readings, results), and by task (times).
pub const BY_PORT: usize = Program::PORTS + 1;

pub const BY_TASK: usize = Program::TASKS + 1;

// Where each of a program's ten tables begins, as they lie one after the other in one room.
pub const PORTS_AT: usize = 0;

pub const TASKS_AT: usize = PORTS_AT + PORTS;

pub const TASK_PORTS_AT: usize = TASKS_AT + TASKS;

pub const DRIVERS_AT: usize = TASK_PORTS_AT + TASK_PORTS;

pub const COPIES_AT: usize = DRIVERS_AT + DRIVERS;

pub const MODES_AT: usize = COPIES_AT + COPIES;

pub const MODE_PORTS_AT: usize = MODES_AT + MODES;

pub const INVOCATIONS_AT: usize = MODE_PORTS_AT + MODE_PORTS;

pub const UPDATES_AT: usize = INVOCATIONS_AT + INVOCATIONS;

pub const SWITCHES_AT: usize = UPDATES_AT + UPDATES;

// How many numbers there is room for in all ten tables.
pub const ALL: usize = SWITCHES_AT + SWITCHES;

// Where each of the ten tables ends: where the next begins.
pub const ENDS: [usize; Program::TABLES] = [
    TASKS_AT,
    TASK_PORTS_AT,
    DRIVERS_AT,
    COPIES_AT,
    MODES_AT,
    MODE_PORTS_AT,
    INVOCATIONS_AT,
    UPDATES_AT,
    SWITCHES_AT,
    ALL,
];

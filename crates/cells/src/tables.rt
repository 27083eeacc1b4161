// The ten tables of a program by their place in document 01's order, and what a row and a whole table may be.
use crate::columns::{
    copy, driver, invocation, mode, mode_port, port, switch, task, task_port, update,
};
use crate::limits::Program;

// The ten tables of a program, as they are lent.
#[derive(Clone, Copy)]
pub struct ProgramTables<'a> {
    pub ports: &'a [i32],
    pub tasks: &'a [i32],
    pub task_ports: &'a [i32],
    pub drivers: &'a [i32],
    pub copies: &'a [i32],
    pub modes: &'a [i32],
    pub mode_ports: &'a [i32],
    pub invocations: &'a [i32],
    pub updates: &'a [i32],
    pub switches: &'a [i32],
}

// The numbers of the tables, as a place names them.
// Numbers and no enum: an answer says them as its place, and arrays by table are indexed with them.
pub const PORTS: usize = 0;

pub const TASKS: usize = 1;

pub const TASK_PORTS: usize = 2;

pub const DRIVERS: usize = 3;

pub const COPIES: usize = 4;

pub const MODES: usize = 5;

pub const MODE_PORTS: usize = 6;

pub const INVOCATIONS: usize = 7;

pub const UPDATES: usize = 8;

pub const SWITCHES: usize = 9;

// The numbers of what is lent beside the ten tables, as a place names it: windows, schedule; the start mode; the supplier asked about.
pub const WINDOWS: usize = 10;

pub const SCHEDULE: usize = 11;

pub const START: usize = 12;

pub const SUPPLIER: usize = 13;

// How many numbers a row of each table has, by the place of the table.
pub const WIDTHS: [usize; Program::TABLES] = [
    port::WIDTH,
    task::WIDTH,
    task_port::WIDTH,
    driver::WIDTH,
    copy::WIDTH,
    mode::WIDTH,
    mode_port::WIDTH,
    invocation::WIDTH,
    update::WIDTH,
    switch::WIDTH,
];

// The most rows that each table may have, by the place of the table.
pub const LIMITS: [usize; Program::TABLES] = [
    Program::PORTS,
    Program::TASKS,
    Program::TASK_PORTS,
    Program::DRIVERS,
    Program::COPIES,
    Program::MODES,
    Program::MODE_PORTS,
    Program::INVOCATIONS,
    Program::UPDATES,
    Program::SWITCHES,
];

// The limits of document 01, as constants of the program's type.

// A program: its tables are lent beside it, its start mode travels in it.
#[derive(Clone, Copy)]
pub struct Program {
    pub start: i32,
}

impl Program {
    // The number of tables that are lent as one value; `tables` says which stands where.
    pub const TABLES: usize = 10;
    // The most rows that each table may have.
    pub const PORTS: usize = 64;

    pub const TASKS: usize = 32;

    pub const TASK_PORTS: usize = 128;

    pub const DRIVERS: usize = 64;

    pub const COPIES: usize = 256;

    pub const MODES: usize = 32;

    pub const MODE_PORTS: usize = 256;

    pub const INVOCATIONS: usize = 64;

    pub const UPDATES: usize = 64;

    pub const SWITCHES: usize = 64;

    pub const WINDOWS: usize = 256;
    // The most schedule rows of one supplier, and of all together.
    pub const PART: usize = 256;

    pub const SCHEDULE: usize = 2048;

    pub const SUPPLIERS: usize = 8;
    // The greatest number that a field may have.
    pub const WORST: usize = 4096;

    pub const PERIOD: usize = 4096;

    pub const FREQUENCY: usize = 64;

    pub const UNITS: usize = 256;
    // The most instructions of E code, the words of one, the longest delay of a `future`.
    pub const CODE: usize = 16384;

    pub const WORDS: usize = 3;

    pub const DELAY: usize = 4096;
    // The most instructions that the shipped program holds.
    pub const HELD: usize = 4096;
    // The most that a state may hold: elapsed and remaining ticks of a unit, remaining time of a task.
    pub const ELAPSED: usize = 4096;

    pub const REMAINING: usize = 4096;

    pub const LEFT: usize = 4096;
    // The first call number of an output copy, and of a sensor reading; those of drivers begin at 0.
    pub const OUTPUT_CALL: usize = 1000;

    pub const SENSOR_CALL: usize = 2000;
}

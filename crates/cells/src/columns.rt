// The columns of each table of document 01 by name, and how many a row has. Those of ports, tasks, drivers and modes are read in this
// crate alone, by the kind.
pub mod port {
    pub const WIDTH: usize = 2;

    pub(crate) const KIND: usize = 0;

    pub(crate) const FIRST: usize = 1;
}

pub mod task {
    pub const WIDTH: usize = 2;

    pub(crate) const SUPPLIER: usize = 0;

    pub(crate) const WORST: usize = 1;
}

pub mod task_port {
    pub const WIDTH: usize = 2;

    pub const TASK: usize = 0;

    pub const PORT: usize = 1;
}

pub mod driver {
    pub const WIDTH: usize = 4;

    pub(crate) const KIND: usize = 0;

    pub(crate) const PORT: usize = 1;

    pub(crate) const LOW: usize = 2;

    pub(crate) const HIGH: usize = 3;
}

pub mod copy {
    pub const WIDTH: usize = 3;

    pub const DRIVER: usize = 0;

    pub const SOURCE: usize = 1;

    pub const DESTINATION: usize = 2;
}

pub mod mode {
    pub const WIDTH: usize = 1;

    pub(crate) const PERIOD: usize = 0;
}

pub mod mode_port {
    pub const WIDTH: usize = 2;

    pub const MODE: usize = 0;

    pub const PORT: usize = 1;
}

// Invocations, updates and switches begin alike: with a mode and a frequency.
pub mod timed {
    pub const MODE: usize = 0;

    pub const FREQUENCY: usize = 1;
}

pub mod invocation {
    pub const WIDTH: usize = 4;

    pub const MODE: usize = crate::columns::timed::MODE;

    pub const FREQUENCY: usize = crate::columns::timed::FREQUENCY;

    pub const TASK: usize = 2;

    pub const DRIVER: usize = 3;
}

pub mod update {
    pub const WIDTH: usize = 3;

    pub const MODE: usize = crate::columns::timed::MODE;

    pub const FREQUENCY: usize = crate::columns::timed::FREQUENCY;

    pub const DRIVER: usize = 2;
}

pub mod switch {
    pub const WIDTH: usize = 4;

    pub const MODE: usize = crate::columns::timed::MODE;

    pub const FREQUENCY: usize = crate::columns::timed::FREQUENCY;

    pub const TARGET: usize = 2;

    pub const DRIVER: usize = 3;
}

pub mod window {
    pub const WIDTH: usize = 4;

    pub const SUPPLIER: usize = 0;

    pub const MODE: usize = 1;

    pub const FROM: usize = 2;

    pub const TO: usize = 3;
}

pub mod schedule {
    pub const WIDTH: usize = 5;

    pub const SUPPLIER: usize = 0;

    pub const ADDRESS: usize = 1;

    pub const KIND: usize = 2;

    pub const TASK: usize = 3;

    pub const TIMEOUT: usize = 4;
}

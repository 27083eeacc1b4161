// The four kinds of number: a driver number never indexes the task table. Only this crate reads a row by a kind's number.
ghost use Rattle.std.specs.Prelude.{ℕ, suc, ◌≡◌, get_or, set};
ghost use Rattle.cells.specs.Cell.{name_of, unnamed};

use crate::table;

// A number that names nothing: every table has fewer rows.
pub const UNNAMED: usize = 255;

// What the four kinds have in common: a number, by which a row of the kind's own table is named.
pub trait Kind: Copy {
    ghost number: { Self → ℕ };

    // What has this number; it names nothing where the number is too large for a table.
    fn of(n: usize) -> Self
        ensures { number result ≡ name_of n };

    // The number as a word, to be written or printed; no table is read by a word.
    fn word(self) -> u32
        ensures { result ≡ number self };
}

#[derive(Clone, Copy, PartialEq, Eq)]
pub struct Port(u8);

#[derive(Clone, Copy, PartialEq, Eq)]
pub struct Task(u8);

#[derive(Clone, Copy, PartialEq, Eq)]
pub struct Driver(u8);

#[derive(Clone, Copy, PartialEq, Eq)]
pub struct Mode(u8);

// A number as one byte; a larger one names nothing. It is asked of each name that is read, so it is one comparison.
fn name(n: usize) -> u8
    ensures { result ≡ name_of n }
{
    if n < UNNAMED {
        return n as u8;
    }
    UNNAMED as u8
}

// Each kind has these two lines of its own: only its own tables may see the number behind it.
impl Kind for Port {
    ghost number = { λ x. x.0 };

    fn of(n: usize) -> Port {
        Port(name(n))
    }

    fn word(self) -> u32 {
        u32::from(self.0)
    }
}

impl Port {
    pub(crate) fn index(self) -> usize
        ensures { result ≡ self.0 }
    {
        usize::from(self.0)
    }
}

impl Kind for Task {
    ghost number = { λ x. x.0 };

    fn of(n: usize) -> Task {
        Task(name(n))
    }

    fn word(self) -> u32 {
        u32::from(self.0)
    }
}

impl Task {
    pub(crate) fn index(self) -> usize
        ensures { result ≡ self.0 }
    {
        usize::from(self.0)
    }
}

impl Kind for Driver {
    ghost number = { λ x. x.0 };

    fn of(n: usize) -> Driver {
        Driver(name(n))
    }

    fn word(self) -> u32 {
        u32::from(self.0)
    }
}

impl Driver {
    pub(crate) fn index(self) -> usize
        ensures { result ≡ self.0 }
    {
        usize::from(self.0)
    }
}

impl Kind for Mode {
    ghost number = { λ x. x.0 };

    fn of(n: usize) -> Mode {
        Mode(name(n))
    }

    fn word(self) -> u32 {
        u32::from(self.0)
    }
}

impl Mode {
    pub(crate) fn index(self) -> usize
        ensures { result ≡ self.0 }
    {
        usize::from(self.0)
    }
}

impl Mode {
    // The mode that is marked at a place; past the end none.
    pub fn marked(marks: &[u8], at: usize) -> Mode
        ensures { result.0 ≡ get_or marks.now at unnamed }
    {
        Mode(table::at(marks, at, UNNAMED as u8))
    }

    // This mode is marked at a place; past the end nothing is.
    pub fn mark(self, marks: &mut [u8], at: usize)
        ensures { marks.new ≡ set marks.old at self.0 }
    {
        table::put(marks, at, self.0);
    }
}

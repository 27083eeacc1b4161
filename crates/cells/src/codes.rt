// What the numbers in the columns of kinds stand for: kinds of port, of guard, of schedule row.
ghost use Rattle.std.specs.Prelude.{◌≡◌};
ghost use Rattle.cells.specs.Codes.{port_kind_number, guard_kind_number, row_kind_number};

#[derive(Clone, Copy, Debug, PartialEq, Eq)]
pub enum PortKind {
    Sensor,
    Actuator,
    Input,
    Output,
    Private,
}

#[derive(Clone, Copy, Debug, PartialEq, Eq)]
pub enum GuardKind {
    Always,
    Interval,
}

#[derive(Clone, Copy, Debug, PartialEq, Eq)]
pub enum RowKind {
    Dispatch,
    Idle,
}

impl From<PortKind> for usize {
    ghost from_gives = { λ kind number. number ≡ port_kind_number kind };

    fn from(kind: PortKind) -> usize {
        match kind {
            PortKind::Sensor => 0,
            PortKind::Actuator => 1,
            PortKind::Input => 2,
            PortKind::Output => 3,
            PortKind::Private => 4,
        }
    }
}

impl From<GuardKind> for usize {
    ghost from_gives = { λ kind number. number ≡ guard_kind_number kind };

    fn from(kind: GuardKind) -> usize {
        match kind {
            GuardKind::Always => 0,
            GuardKind::Interval => 1,
        }
    }
}

impl From<RowKind> for usize {
    ghost from_gives = { λ kind number. number ≡ row_kind_number kind };

    fn from(kind: RowKind) -> usize {
        match kind {
            RowKind::Dispatch => 0,
            RowKind::Idle => 1,
        }
    }
}

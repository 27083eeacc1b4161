// The six instructions of E code by name, and their numbers.
ghost use Rattle.std.specs.Prelude.{◌≡◌};
ghost use Rattle.code.specs.Opcodes.{opcode_number, OpcodeOf};

#[derive(Clone, Copy, Debug, PartialEq, Eq)]
pub enum Opcode {
    Call,
    Schedule,
    If,
    Jump,
    Future,
    Return,
}

// A number that no instruction has.
#[derive(Clone, Copy, Debug, PartialEq, Eq)]
pub struct UnknownOpcode;

impl From<Opcode> for usize {
    ghost from_gives = { λ opcode number. number ≡ opcode_number opcode };

    fn from(opcode: Opcode) -> usize {
        match opcode {
            Opcode::Call => 0,
            Opcode::Schedule => 1,
            Opcode::If => 2,
            Opcode::Jump => 3,
            Opcode::Future => 4,
            Opcode::Return => 5,
        }
    }
}

impl TryFrom<usize> for Opcode {
    type Error = UnknownOpcode;

    ghost try_from_gives = { OpcodeOf };

    fn try_from(number: usize) -> Result<Opcode, UnknownOpcode> {
        match number {
            0 => Ok(Opcode::Call),
            1 => Ok(Opcode::Schedule),
            2 => Ok(Opcode::If),
            3 => Ok(Opcode::Jump),
            4 => Ok(Opcode::Future),
            5 => Ok(Opcode::Return),
            _ => Err(UnknownOpcode),
        }
    }
}

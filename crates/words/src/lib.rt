// One instruction of E code: from what it names, and written into a lent slice.
#![tactic(auto)]

ghost use Rattle.std.specs.Prelude.{◌≡◌, [], ◌∷◌, ◌≤◌};
ghost use Rattle.cells.specs.Cell.{greatest_word};
ghost use Rattle.code.specs.Op.{schedule, branch};
ghost use Rattle.code.specs.Opcodes.{opcode_number};
ghost use Rattle.code.specs.Listing.{call_driver, call_output, call_sensor};
ghost use Rattle.words.specs.Written.{instruction, words_in, three, written, writes};

use cells::kinds::{Driver, Kind, Port, Task};
use cells::limits::Program;
use cells::table;
use code::opcode::Opcode;

// An instruction: the number of what it does, and its other two words.
#[derive(Clone, Copy)]
pub struct Instruction {
    number: u32,
    first: u32,
    second: u32,
}

impl Instruction {
    // An instruction from any three words, whether 01 has one of this number or not.
    pub fn of_words(number: u32, first: u32, second: u32) -> Instruction
        ensures { words_in result ≡ instruction number first second }
    {
        Instruction {
            number,
            first,
            second,
        }
    }

    // An instruction from what it does and its other two words; those that it does not use are 0.
    pub fn new(opcode: Opcode, first: u32, second: u32) -> Instruction
        ensures { words_in result ≡ instruction (opcode_number opcode) first second }
    {
        // The six numbers of 01 fit a word.
        Instruction::of_words(usize::from(opcode) as u32, first, second)
    }

    // The call that copies the outputs of task t.
    pub fn output_call(t: Task) -> Instruction
        ensures { words_in result ≡ three (call_output t.0) }
    {
        // The limits of 01 fit a word, as addresses below do.
        Instruction::new(Opcode::Call, Program::OUTPUT_CALL as u32 + t.word(), 0)
    }

    // The call of driver d.
    pub fn driver_call(d: Driver) -> Instruction
        ensures { words_in result ≡ three (call_driver d.0) }
    {
        Instruction::new(Opcode::Call, d.word(), 0)
    }

    // The call that reads sensor p.
    pub fn sensor_call(p: Port) -> Instruction
        ensures { words_in result ≡ three (call_sensor p.0) }
    {
        Instruction::new(Opcode::Call, Program::SENSOR_CALL as u32 + p.word(), 0)
    }

    // The schedule of task t.
    pub fn schedule(t: Task) -> Instruction
        ensures { words_in result ≡ three (schedule t.0) }
    {
        Instruction::new(Opcode::Schedule, t.word(), 0)
    }

    // The test of driver d, which goes to a stub: `if driver stub`.
    pub fn test(d: Driver, stub: usize) -> Instruction
        requires { stub ≤ greatest_word }
        ensures { words_in result ≡ three (branch d.0 stub) }
    {
        Instruction::new(Opcode::If, d.word(), stub as u32)
    }

    // The instruction is written at an address; past the end of the slice nothing is. The next address is returned.
    pub fn write(self, code: &mut [u32], at: usize) -> usize
        requires { at ≤ greatest_word }
        ensures { written code.new result ≡ writes (words_in self ∷ []) (written code.old at) }
    {
        let place = at * Program::WORDS;
        table::put(code, place, self.number);
        table::put(code, place + 1, self.first);
        table::put(code, place + 2, self.second);
        at + 1
    }
}

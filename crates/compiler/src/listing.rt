// E code of all modes, behind the jump to the start mode.
ghost use Rattle.std.specs.Prelude.{◌≡◌, ◌+◌, ◌<◌, ℤ, get_or};
ghost use Rattle.cells.specs.Cell.{rows_in, greatest_word};
ghost use Rattle.program.specs.Tables.{table_at, tables_in, modes_at, mode_width, mode_count};
ghost use Rattle.layout.specs.Counts.{most_mode};
ghost use Rattle.layout.specs.Few.{Periods};
ghost use Rattle.words.specs.Written.{written, writes};
ghost use Rattle.writing.specs.Switches.{Addresses};
ghost use Rattle.compiler.specs.Sources.{Sourced};
ghost use Rattle.compiler.specs.Modes.{mode_in, modes_in, all_in};

use crate::rounds;
use crate::rounds::{Round, Source};
use cells::columns::mode;
use cells::kinds::{Kind, Mode};
use cells::modes;
use code::opcode::Opcode;
use program::multiples;
use words::Instruction;

// The blocks of mode m are written, of which the first stands at `at`. The address behind the mode is returned.
fn one_mode(code: &mut [u32], at: usize, source: Source, m: Mode) -> usize
    requires sourced { Sourced source }
    requires periods { Periods (table_at source.tables.now modes_at) }
    requires m_bound { m.0 < rows_in mode_width (table_at source.tables.now modes_at) }
    requires most_mode_bound { at + most_mode < greatest_word }
    ensures { (start : ℤ) → let T = tables_in source.entry.tables.now start in
        written code.new result ≡ writes (mode_in T source.entry.entries.now m.0 at) (written code.old at) }
{
    let u = multiples::units(source.tables, m);
    let period = modes::period(source.tables.modes, m);
    let round = Round {
        mode: m,
        units: u,
        ticks: period / u,
        first: at,
    };
    rounds::all_blocks(code, source, round)
}

// The blocks of all modes are written, one mode after the other, behind the jump at address 0. The length of the code is returned.
fn all_modes(code: &mut [u32], source: Source) -> usize
    requires sourced { Sourced source }
    requires periods { Periods (table_at source.tables.now modes_at) }
    ensures { (start : ℤ) → let T = tables_in source.entry.tables.now start in
        written code.new result ≡ writes (modes_in T source.entry.entries.now (mode_count T)) (written code.old 1) }
{
    let modes = source.tables.modes;
    let mut at = 1;
    for k in 0..source.tables.modes.len() / mode::WIDTH {
        at = one_mode(code, at, source, Mode::of(k));
    }
    at
}

// The whole listing is written: a jump to the first block of the start mode, then the modes. Its length is returned.
pub fn all(code: &mut [u32], source: Source, starts: &[usize], first: Mode) -> usize
    requires sourced { Sourced source }
    requires addresses { Addresses starts.now }
    requires periods { Periods (table_at source.tables.now modes_at) }
    ensures { (start : ℤ) → let T = tables_in source.entry.tables.now start in
        let begin = get_or starts.now first.0 0 in
        written code.new result ≡ writes (all_in T source.entry.entries.now begin) (written code.old 0) }
{
    let begin = modes::number(starts, first);
    // Addresses fit a word: the layout is laid in `most_code` instructions.
    Instruction::new(Opcode::Jump, begin as u32, 0).write(code, 0);
    all_modes(code, source)
}

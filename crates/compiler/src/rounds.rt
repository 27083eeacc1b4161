// E code of the round of a mode: the blocks of its units, one after the other.
ghost use Rattle.std.specs.Prelude.{◌≡◌, suc, ◌+◌, ◌≤◌, ◌<◌, ℤ};
ghost use Rattle.cells.specs.Cell.{greatest_word};
ghost use Rattle.cells.specs.Limits.{max_units};
ghost use Rattle.program.specs.Tables.{tables_in};
ghost use Rattle.layout.specs.Counts.{most_block, most_mode};
ghost use Rattle.layout.specs.Few.{Sized};
ghost use Rattle.words.specs.Written.{written, writes};
ghost use Rattle.compiler.specs.Sources.{Sourced};
ghost use Rattle.compiler.specs.Rounds.{next_in, aim_in, block_in, round_in};

use cells::kinds::Mode;
use cells::limits::Program;
use cells::tables::ProgramTables;
use layout::counts;
use layout::counts::{Counts, Instant};
use writing::blocks;
use writing::blocks::Aim;

// The round of a mode: the mode, its units, the ticks of one, and where its first block stands.
#[derive(Clone, Copy)]
pub struct Round {
    pub mode: Mode,
    pub units: usize,
    pub ticks: usize,
    pub first: usize,
}

// What a listing is written from: the tables of a program, where its modes are entered, how many sensors it has.
#[derive(Clone, Copy)]
pub struct Source<'a> {
    pub tables: &'a ProgramTables<'a>,
    pub entries: &'a [usize],
    pub sensors: usize,
}

// Where the block of the next unit stands: behind this one, which ends at `end`, or after the last unit where the first stands.
fn next_block(round: Round, unit: usize, end: usize) -> usize
    requires { unit < round.units }
    ensures { result ≡ next_in round unit end }
{
    if unit + 1 == round.units {
        return round.first;
    }
    end
}

// The numbers in the block of a unit, which stands at `at` and has so many instructions of each kind.
fn aims(round: Round, unit: usize, at: usize, due: Counts) -> Aim
    requires unit_lt_units { unit < round.units }
    requires most_block_bound { at + most_block < greatest_word }
    requires sized { Sized due }
    ensures { result ≡ aim_in round unit at due }
{
    let after = next_block(round, unit, at + counts::block_size(due));
    Aim {
        stub: at + counts::before_future(due) + 2,
        ticks: round.ticks,
        next: after,
    }
}

// The block of a unit of a round is written at an address. The address behind it is returned.
fn block(code: &mut [u32], at: usize, source: Source, round: Round, unit: usize) -> usize
    requires sourced { Sourced source }
    requires ticks_le_greatest_word { round.ticks ≤ greatest_word }
    requires first_le_greatest_word { round.first ≤ greatest_word }
    requires unit_lt_units { unit < round.units }
    requires most_block_bound { at + most_block < greatest_word }
    ensures { (start : ℤ) → let T = tables_in source.entry.tables.now start in
        written code.new result ≡ writes (block_in T source.entry.entries.now round unit at) (written code.old at) }
{
    let when = Instant {
        mode: round.mode,
        units: round.units,
        unit,
    };
    let due = counts::count(source.tables, source.sensors, when);
    let aim = aims(round, unit, at, due);
    blocks::parts(code, at, source.tables, source.entries, when, aim)
}

// The blocks of all units of a round are written, one after the other. The address behind them is returned.
pub fn all_blocks(code: &mut [u32], source: Source, round: Round) -> usize
    requires sourced { Sourced source }
    requires ticks_le_greatest_word { round.ticks ≤ greatest_word }
    requires units_bound { round.units ≤ suc max_units }
    requires most_mode_bound { round.first + most_mode < greatest_word }
    ensures { (start : ℤ) → let T = tables_in source.entry.tables.now start in
        written code.new result ≡ writes (round_in T source.entry.entries.now round) (written code.old round.first) }
{
    let mut at = round.first;
    for unit in 0..round.units {
        at = block(code, at, source, round, unit);
    }
    at
}

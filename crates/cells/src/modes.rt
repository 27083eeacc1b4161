// The table of modes, and numbers by mode: each is read and written by a mode alone.
ghost use Rattle.std.specs.Prelude.{◌≡◌, ltb, get_or, set};
ghost use Rattle.cells.specs.Cell.{rows_in, field_at};
ghost use Rattle.cells.specs.Columns.{mode_width, mode_period_column};

use crate::columns::mode;
use crate::kinds::Mode;
use crate::table;

// Mode m is declared.
// As for ports: a number of one kind never indexes another's table.
pub fn declared(modes: &[i32], m: Mode) -> bool
    ensures { result ≡ ltb m.0 (rows_in mode_width modes.now) }
{
    m.index() < modes.len() / mode::WIDTH
}

// The period of mode m, in ticks.
pub fn period(modes: &[i32], m: Mode) -> usize
    ensures { result ≡ field_at mode_width mode_period_column modes.now m.0 }
{
    table::field(modes, mode::WIDTH, m.index(), mode::PERIOD)
}

// The number that mode m has in a list; 0 where there are not so many.
pub fn number(list: &[usize], m: Mode) -> usize
    ensures { result ≡ get_or list.now m.0 0 }
{
    table::at(list, m.index(), 0)
}

// A number is put for mode m; where there are not so many, none is.
pub fn put_number(list: &mut [usize], m: Mode, n: usize)
    ensures { list.new ≡ set list.old m.0 n }
{
    table::put(list, m.index(), n);
}

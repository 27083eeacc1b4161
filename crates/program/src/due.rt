// Which rows of invocations, updates and switches are due at a unit, and how many.
ghost use Rattle.std.specs.Prelude.{◌≡◌, length};
ghost use Rattle.cells.specs.Cell.{Column};
ghost use Rattle.program.specs.Tables.{frequency_column};
ghost use Rattle.program.specs.Units.{due, row_due, due_rows};

use cells::columns::timed;
use cells::kinds::Mode;
use cells::table;
use theory::scan;

// A row of frequency f is due at unit k of a mode of u units.
fn is_due(u: usize, f: usize, k: usize) -> bool
    ensures { result ≡ due u f k }
{
    if f == 0 {
        return k == 0;
    }
    let step = u / f;
    if step == 0 {
        return k == 0;
    }
    k % step == 0
}

// Row i of the table is one of mode m, which has u units, and is due at unit k.
#[tactic(auto, unfolding(crate::specs::Units::row_due))]
pub fn row_due(t: &[i32], width: usize, m: Mode, u: usize, k: usize, i: usize) -> bool
    requires { Column width frequency_column }
    ensures { result ≡ row_due width t.now m.0 u k i }
{
    let own: Mode = table::named(t, width, i, timed::MODE);
    let f = table::field(t, width, i, timed::FREQUENCY);
    (own == m) & is_due(u, f, k)
}

// How many rows of the table are of mode m, which has u units, and due at unit k.
pub fn due_rows(t: &[i32], width: usize, m: Mode, u: usize, k: usize) -> usize
    requires { Column width frequency_column }
    ensures { result ≡ length (due_rows width t.now m.0 u k (λ i. i)) }
{
    let n = t.len() / width;
    scan::count(n, |i| row_due(t, width, m, u, k, i))
}

// Number 12: the first window that is wrong by itself or shares a tick with an earlier one.
ghost use Rattle.std.specs.Prelude.{◌≡◌};
ghost use Rattle.theory.specs.Search.{any, lowest_passing};
ghost use Rattle.program.specs.Tables.{Tables};
ghost use Rattle.runs.specs.Windows.{window_count, share_tick};
ghost use Rattle.suppliers.specs.Windows.{window_wrong};

use cells::columns::window;
use cells::kinds::Mode;
use cells::limits::Program;
use cells::{modes, table};
use theory::scan;

// Windows i and j are of one mode and share a tick.
#[tactic(auto, unfolding(runs::specs::Windows::share_tick))]
fn share_tick(windows: &[i32], i: usize, j: usize) -> bool
    ensures { result ≡ share_tick windows.now i j }
{
    let one: Mode = table::named(windows, window::WIDTH, i, window::MODE);
    let other: Mode = table::named(windows, window::WIDTH, j, window::MODE);
    let from = table::field(windows, window::WIDTH, i, window::FROM);
    let to = table::field(windows, window::WIDTH, i, window::TO);
    let other_from = table::field(windows, window::WIDTH, j, window::FROM);
    let other_to = table::field(windows, window::WIDTH, j, window::TO);
    (other == one) & (from < other_to) & (other_from < to)
}

// Window i shares a tick with an earlier window of its mode.
fn shares_earlier(windows: &[i32], i: usize) -> bool
    ensures { result ≡ any (share_tick windows.now i) i }
{
    scan::any(i, |j| share_tick(windows, i, j))
}

// Window i is not 0 ≤ from < to ≤ period of a declared mode, for one of the suppliers, or shares a tick with an earlier one.
#[tactic(auto, unfolding(crate::specs::Windows::window_wrong))]
fn window_wrong(modes: &[i32], windows: &[i32], i: usize) -> bool
    ensures { (T : Tables) → T.modes ≡ modes.now → result ≡ window_wrong T windows.now i }
{
    let supplier = table::field(windows, window::WIDTH, i, window::SUPPLIER);
    let own: Mode = table::named(windows, window::WIDTH, i, window::MODE);
    let from = table::field(windows, window::WIDTH, i, window::FROM);
    let to = table::field(windows, window::WIDTH, i, window::TO);
    let period = modes::period(modes, own);
    let fits = (supplier < Program::SUPPLIERS)
        & modes::declared(modes, own)
        & (from < to)
        & (to <= period);
    !fits | shares_earlier(windows, i)
}

// The lowest row that breaks number 12, if one does.
pub fn first_wrong_window(modes: &[i32], windows: &[i32]) -> Option<usize>
    ensures { (T : Tables) → T.modes ≡ modes.now
        → result ≡ lowest_passing (window_wrong T windows.now) (window_count windows.now) }
{
    scan::first(
        windows.len() / window::WIDTH,
        |i| window_wrong(modes, windows, i),
    )
}

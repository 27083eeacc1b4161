// The windows of a supplier in a mode: how long the one that has a tick lasts.
ghost use Rattle.std.specs.Prelude.{◌≡◌};
ghost use Rattle.runs.specs.Windows.{window_has, window_end, open_until};

use cells::columns::window;
use cells::kinds::Mode;
use cells::table;
use theory::scan;

// The windows of one supplier in one mode, among the rows of all.
#[derive(Clone, Copy)]
pub struct Windows<'a> {
    pub rows: &'a [i32],
    pub supplier: usize,
    pub mode: Mode,
}

impl Windows<'_> {
    // Row i is one of these windows, and has the tick.
    #[tactic(auto, unfolding(crate::specs::Windows::window_has))]
    fn has(self, tick: usize, i: usize) -> bool
        ensures { result ≡ window_has self.entry.rows.now self.entry.supplier self.entry.mode.0 tick i }
    {
        let owner = table::field(self.rows, window::WIDTH, i, window::SUPPLIER);
        let own: Mode = table::named(self.rows, window::WIDTH, i, window::MODE);
        let from = table::field(self.rows, window::WIDTH, i, window::FROM);
        let to = table::field(self.rows, window::WIDTH, i, window::TO);
        (owner == self.supplier) & (own == self.mode) & (from <= tick) & (tick < to)
    }

    // Where the first of these windows that has the tick ends; 0 where none has it.
    fn end(self, tick: usize) -> usize
        ensures { result ≡ window_end self.entry.rows.now self.entry.supplier self.entry.mode.0 tick }
    {
        match scan::first(self.rows.len() / window::WIDTH, |i| self.has(tick, i)) {
            Some(i) => table::field(self.rows, window::WIDTH, i, window::TO),
            None => 0,
        }
    }

    // Up to which tick the supplier may run: as far as is known, and where it runs beyond that, as far as the window that has the tick.
    #[tactic(auto, unfolding(crate::specs::Windows::open_until))]
    pub(crate) fn open_until(self, tick: usize, until: usize, running: bool) -> usize
        ensures { result ≡ open_until self.entry.rows.now self.entry.supplier self.entry.mode.0 tick until running }
    {
        if running & (until <= tick) {
            return self.end(tick);
        }
        until
    }
}

// Number 13: the first row of a part that is wrong by itself, comes before the one above it or is of another supplier; the first row of
// the joined schedule that is so or past its supplier's last.
ghost use Rattle.std.specs.Prelude.{◌≡◌, not, ◌||◌, eqb};
ghost use Rattle.theory.specs.Search.{lowest_passing};
ghost use Rattle.program.specs.Tables.{Tables};
ghost use Rattle.layout.specs.Delays.{delays_of};
ghost use Rattle.runs.specs.Schedule.{schedule_count, row_supplier, row_address, row_timeout};
ghost use Rattle.suppliers.specs.Schedule.{delay_fits, dispatch_fits, idle_fits, precedes, past_part};
ghost use Rattle.suppliers.specs.Delays.{row_wrong_by};

use cells::codes::RowKind;
use cells::columns::schedule;
use cells::kinds::{Kind, Task};
use cells::limits::Program;
use cells::{table, tasks};
use layout::delays;
use theory::scan;

// The rows of a schedule, with the table of tasks and the delays that they are held against: at each address which mode's `future` stands
// there, by mode the ticks of a unit.
#[derive(Clone, Copy)]
pub struct Schedule<'a> {
    pub tasks: &'a [i32],
    pub marks: &'a [u8],
    pub ticks: &'a [usize],
    pub rows: &'a [i32],
}

impl Schedule<'_> {
    // A `future` stands at the address of row i, and the timeout of row i is within the delay of that `future`.
    #[tactic(auto, unfolding(crate::specs::Schedule::delay_fits))]
    fn delay_fits(self, i: usize) -> bool
        ensures { let S = self.entry.rows.now in
            result ≡ delay_fits (delays_of self.entry.marks.now self.entry.ticks.now) (row_address S i) (row_timeout S i) }
    {
        let address = table::field(self.rows, schedule::WIDTH, i, schedule::ADDRESS);
        let timeout = table::field(self.rows, schedule::WIDTH, i, schedule::TIMEOUT);
        let delay = delays::delay(self.marks, self.ticks, address);
        (0 < delay) & (timeout <= delay)
    }

    // Row i is a dispatch of a declared task of the supplier that row i names.
    #[tactic(auto, unfolding(crate::specs::Schedule::dispatch_fits))]
    fn dispatch_fits(self, i: usize) -> bool
        ensures { (T : Tables) → T.tasks ≡ self.entry.tasks.now → result ≡ dispatch_fits T self.entry.rows.now i }
    {
        let kind = table::field(self.rows, schedule::WIDTH, i, schedule::KIND);
        let task: Task = table::named(self.rows, schedule::WIDTH, i, schedule::TASK);
        let owner = tasks::owner(self.tasks, task);
        let supplier = table::field(self.rows, schedule::WIDTH, i, schedule::SUPPLIER);
        (kind == usize::from(RowKind::Dispatch))
            & tasks::declared(self.tasks, task)
            & (owner == supplier)
    }

    // Row i is an idle row and has task 0.
    #[tactic(auto, unfolding(crate::specs::Schedule::idle_fits, cells::specs::Cell::name_of))]
    fn idle_fits(self, i: usize) -> bool
        ensures { result ≡ idle_fits self.entry.rows.now i }
    {
        let kind = table::field(self.rows, schedule::WIDTH, i, schedule::KIND);
        let own: Task = table::named(self.rows, schedule::WIDTH, i, schedule::TASK);
        (kind == usize::from(RowKind::Idle)) & (own == Task::of(0))
    }

    // Row i comes before row j in the order of supplier, then address.
    #[tactic(auto, unfolding(crate::specs::Schedule::precedes))]
    fn precedes(self, i: usize, j: usize) -> bool
        ensures { result ≡ precedes self.entry.rows.now i j }
    {
        let supplier = table::field(self.rows, schedule::WIDTH, i, schedule::SUPPLIER);
        let address = table::field(self.rows, schedule::WIDTH, i, schedule::ADDRESS);
        let other = table::field(self.rows, schedule::WIDTH, j, schedule::SUPPLIER);
        let other_address = table::field(self.rows, schedule::WIDTH, j, schedule::ADDRESS);
        (supplier, address) < (other, other_address)
    }

    // Row i breaks number 13: it is wrong by itself, or comes before the row above it (above row 0 stands row 0 itself).
    #[tactic(auto, unfolding(crate::specs::Delays::row_wrong_by))]
    fn wrong(self, i: usize) -> bool
        ensures { let c = self.entry in
            (T : Tables) → T.tasks ≡ c.tasks.now → result ≡ row_wrong_by T (delays_of c.marks.now c.ticks.now) c.rows.now i }
    {
        let supplier = table::field(self.rows, schedule::WIDTH, i, schedule::SUPPLIER);
        let action = self.dispatch_fits(i) | self.idle_fits(i);
        let fits = (supplier < Program::SUPPLIERS) & action & self.delay_fits(i);
        !fits | self.precedes(i, i.saturating_sub(1))
    }

    // Row i is of this supplier.
    fn is_of(self, supplier: usize, i: usize) -> bool
        ensures { result ≡ eqb (row_supplier self.entry.rows.now i) supplier }
    {
        table::field(self.rows, schedule::WIDTH, i, schedule::SUPPLIER) == supplier
    }

    // The lowest row of the part of this supplier that breaks number 13 or is of another supplier, if one is.
    pub fn first_wrong_in_part(self, supplier: usize) -> Option<usize>
        ensures { let c = self.entry in
            (T : Tables) → T.tasks ≡ c.tasks.now → let S = c.rows.now in
            let delays = delays_of c.marks.now c.ticks.now in
            result ≡ lowest_passing (λ i. row_wrong_by T delays S i || not (eqb (row_supplier S i) supplier)) (schedule_count S) }
    {
        scan::first(
            self.rows.len() / schedule::WIDTH,
            |i| self.wrong(i) | !self.is_of(supplier, i),
        )
    }

    // Row i has the supplier of the row that stands as many rows above it as a part may have.
    #[tactic(auto, unfolding(crate::specs::Schedule::past_part))]
    fn past_part(self, i: usize) -> bool
        ensures { result ≡ past_part self.entry.rows.now i }
    {
        if i < Program::PART {
            return false;
        }
        let supplier = table::field(self.rows, schedule::WIDTH, i, schedule::SUPPLIER);
        self.is_of(supplier, i - Program::PART)
    }

    // The lowest row of the joined schedule that breaks number 13 or is past its supplier's last, if one is.
    pub fn first_wrong_joined(self) -> Option<usize>
        ensures { let c = self.entry in
            (T : Tables) → T.tasks ≡ c.tasks.now → let S = c.rows.now in
            let delays = delays_of c.marks.now c.ticks.now in
            result ≡ lowest_passing (λ i. row_wrong_by T delays S i || past_part S i) (schedule_count S) }
    {
        scan::first(
            self.rows.len() / schedule::WIDTH,
            |i| self.wrong(i) | self.past_part(i),
        )
    }
}

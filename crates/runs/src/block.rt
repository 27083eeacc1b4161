// The block of a supplier at an address: a part of a schedule that is sorted by supplier, then address, found by halving.
ghost use Rattle.std.specs.Prelude.{◌≡◌, ◌≤◌};
ghost use Rattle.cells.specs.Cell.{greatest_word};
ghost use Rattle.runs.specs.Schedule.{schedule_count, Sorted, reaches, reach, found, span_of};

use cells::columns::schedule;
use cells::{parts, table};

// The rows of a schedule from row `begin` on, before row `end`. (The library's range is not `Copy`.)
#[derive(Clone, Copy)]
pub struct Span {
    pub begin: usize,
    pub end: usize,
}

// Row i of a schedule does not come before this supplier and address, in the order of supplier, then address.
#[tactic(auto, unfolding(crate::specs::Schedule::reaches))]
fn reaches(rows: &[i32], supplier: usize, address: usize, i: usize) -> bool
    ensures { result ≡ reaches rows.now supplier address i }
{
    let owner = table::field(rows, schedule::WIDTH, i, schedule::SUPPLIER);
    let own = table::field(rows, schedule::WIDTH, i, schedule::ADDRESS);
    (supplier, address) <= (owner, own)
}

// The first row from row `from` on that does not come before this supplier and address, if the rows are sorted; after the last row
// where each does. Each row asked halves the rows that are left; of rows that are not sorted, some row or their end.
fn reach(rows: &[i32], from: usize, supplier: usize, address: usize) -> usize
    requires { from ≤ schedule_count rows.now }
    ensures lower_bound { (from ≤ result) × (result ≤ schedule_count rows.now) }
    ensures value { Sorted rows.now → result ≡ reach rows.now from supplier address }
{
    let mut low = from;
    let mut high = rows.len() / schedule::WIDTH;
    // A loop, since its measure bounds how many rows are asked (`few-halvings`); the library's `partition_point` promises no such number.
    while low < high {
        let middle = low + (high - low) / 2;
        if reaches(rows, supplier, address, middle) {
            high = middle;
        } else {
            low = middle + 1;
        }
    }
    low
}

// Where the block of a supplier at an address stands in a sorted schedule, if no row of it comes before row `from`.
pub fn find(rows: &[i32], from: usize, supplier: usize, address: usize) -> Span
    requires from_bound { from ≤ schedule_count rows.now }
    requires address_le_greatest_word { address ≤ greatest_word }
    ensures begin_le_end { (result.begin ≤ result.end) × (result.end ≤ schedule_count rows.now) }
    ensures value { Sorted rows.now → result ≡ found rows.now from supplier address }
{
    let begin = reach(rows, from, supplier, address);
    let end = reach(rows, begin, supplier, address + 1);
    Span { begin, end }
}

// The part of a schedule that has the rows of this span.
pub fn rows_at(rows: &[i32], at: Span) -> &[i32]
    requires begin_le_end { at.begin ≤ at.end }
    requires end_bound { at.end ≤ schedule_count rows.now }
    ensures { result.now ≡ span_of rows.now at }
{
    let n = at.end - at.begin;
    parts::part(rows, at.begin * schedule::WIDTH, n * schedule::WIDTH)
}

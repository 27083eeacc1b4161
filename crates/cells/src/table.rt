// Total access to a lent table by place, and by row and column. Past the end stands 0.
ghost use Rattle.std.specs.Prelude.{◌≡◌, get_or, set};
ghost use Rattle.cells.specs.Cell.{Column, index_of, num_at, word_at, field_at, named_at, value_at};

use crate::kinds::Kind;

// What stands at a place of a slice; past the end stands what is named instead.
pub fn at<T: Copy>(t: &[T], place: usize, instead: T) -> T
    ensures { result ≡ get_or t.now place instead }
{
    t.get(place).copied().unwrap_or(instead)
}

// A value is put at a place of a slice; past the end nothing is put. (Nothing is said of what a slice ends as behind `get_mut`.)
pub fn put<T: Copy>(t: &mut [T], place: usize, value: T)
    ensures { t.new ≡ set t.old place value }
{
    if place < t.len() {
        t[place] = value;
    }
}

// A number that is out of range wherever document 01 has a range.
pub const OUT_OF_RANGE: usize = 2147483648;

// A signed number as one that counts or names; a negative one is out of every range. It is asked of each field that is read, and
// `try_from` takes five instructions more.
pub fn index(x: i32) -> usize
    ensures { result ≡ index_of x }
{
    if x < 0 {
        return OUT_OF_RANGE;
    }
    x as usize
}

// The number at a place of a slice, as one that counts or names; past the end stands 0.
#[tactic(auto, unfolding(crate::specs::Cell::num_at))]
pub(crate) fn num(t: &[i32], place: usize) -> usize
    ensures { result ≡ num_at t.now place }
{
    index(at(t, place, 0))
}

// The word at a place of E code; past the end stands 0.
#[tactic(auto, unfolding(crate::specs::Cell::word_at))]
pub fn word(code: &[u32], place: usize) -> usize
    ensures { result ≡ word_at code.now place }
{
    // A word always fits, and `as` is what compiles to nothing.
    at(code, place, 0) as usize
}

// A column of a row of a table, as a number that counts.
pub fn field(t: &[i32], width: usize, row: usize, column: usize) -> usize
    requires { Column width column }
    ensures { result ≡ field_at width column t.now row }
{
    if row < t.len() {
        return num(t, row * width + column);
    }
    0
}

// A column of a row of a table, as a signed value.
pub(crate) fn signed(t: &[i32], width: usize, row: usize, column: usize) -> i32
    requires { Column width column }
    ensures { result ≡ value_at width column t.now row }
{
    if row < t.len() {
        return at(t, row * width + column, 0);
    }
    0
}

// What a row of a table names in a column: a port, a task, a driver or a mode.
pub fn named<K: Kind>(t: &[i32], width: usize, row: usize, column: usize) -> K
    requires { Column width column }
    ensures { K.number result ≡ named_at width column t.now row }
{
    K::of(field(t, width, row, column))
}

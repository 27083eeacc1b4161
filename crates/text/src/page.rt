// The listing page by page: as many whole lines as a lent slice is sure to hold.
ghost use Rattle.std.specs.Prelude.{◌+◌, ◌/◌, ◌≤◌, ◌<◌, length, get_or};
ghost use Rattle.cells.specs.Limits.{words_each};
ghost use Rattle.code.specs.Op.{faulty, instructions};
ghost use Rattle.text.specs.Listing.{line_of};
ghost use Rattle.text.specs.Line.{room, Holds};
ghost use Rattle.text.specs.Page.{Laid, Filled};

use crate::line::Line;
use crate::listing;
use cells::limits::Program;
use cells::table;

// How far a page goes: `next` is the first instruction that is not on it, and `len` how many bytes it has.
#[derive(Clone, Copy)]
pub struct Page {
    pub next: usize,
    pub len: usize,
}

// The line of instruction i of a code.
fn line_at(code: &[u32], i: usize) -> Line
    requires { i < length code.now / words_each }
    ensures { Holds result (line_of i (get_or (instructions code.now) i faulty)) }
{
    let at = i * Program::WORDS;
    let number = table::word(code, at);
    let first = table::word(code, at + 1);
    let second = table::word(code, at + 2);
    listing::line(i, number, first, second)
}

// A line is laid at a place of a slice. The place behind it is returned.
pub fn lay(out: &mut [u8], at: usize, line: Line) -> usize
    requires room_in_bounds { at + room ≤ length out.old }
    requires len_le_room { line.len ≤ room }
    ensures { Laid out.old out.new at line result }
{
    let end = at + line.len;
    out[at..end].copy_from_slice(&line.bytes[..line.len]);
    end
}

// The lines of the instructions from number `from` on are laid at the start of a slice, as long as it has room for any line.
pub fn fill(code: &[u32], from: usize, out: &mut [u8]) -> Page
    ensures { Filled (instructions code.now) from out.old out.new result }
{
    let count = code.len() / Program::WORDS;
    let mut len = 0;
    for next in from..count {
        if out.len() - len < Line::ROOM {
            return Page { next, len };
        }
        len = lay(out, len, line_at(code, next));
    }
    Page {
        next: from.max(count),
        len,
    }
}

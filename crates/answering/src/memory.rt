// The program's buffers, each with what the theorem asks of it, and that they are within 64 KiB.
ghost use Rattle.std.specs.Prelude.{◌≤◌, ◌≡◌, true, length};
ghost use Rattle.text.specs.Line.{room};
ghost use Rattle.answering.specs.Answer.{blank};
ghost use Rattle.answering.specs.Writing.{empty_buffer};

use cells::limits::Program;
use intake::shape::ROOM;
use text::line::Line;

// How many words the longest listing has that is held.
const CODE: usize = Program::HELD * Program::WORDS;

// How many bytes of the input are held at a time, and later of the listing's text.
const BUFFER: usize = 4096;

// How many bytes all buffers have together.
const BUFFERS: usize = 4 * ROOM + 4 * CODE + BUFFER + Line::ROOM;

// How many bytes all buffers may have together.
const MOST: usize = 65536;

// The buffers are within 64 KiB.
pub fn within_memory() -> bool
    ensures { result ≡ true }
{
    BUFFERS <= MOST
}

// Room for the longest listing that is held, blank.
pub fn blank_code() -> [u32; CODE]
    ensures { result ≡ blank }
{
    [0u32; CODE]
}

// Room for a piece of the input, and for any line of a listing.
pub fn empty_buffer() -> [u8; BUFFER]
    ensures { (result ≡ empty_buffer) × (room ≤ length result) }
{
    [0u8; BUFFER]
}

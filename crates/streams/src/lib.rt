// One read or one write, with how many bytes it moved.
#![tactic(auto)]

ghost use Rattle.std.specs.Prelude.{◌≡◌, ◌≤◌, length};
ghost use Rattle.std.specs.Io.KnownBytes.{ReadConsumes, WriteAppends};
ghost use Rattle.streams.specs.Counts.{clamp_len, Moved};

use std::io;
use std::io::{Read, Write};

// Reads once into the buffer: how many bytes it put at the buffer's start, 0 at the end of the input. Of a reader whose bytes are known
// these are the next ones.
pub fn read_some<R: Read>(input: &mut R, buffer: &mut [u8]) -> io::Result<usize>
    ensures count { Moved (length buffer.new) result }
    ensures bytes { ReadConsumes (R.remaining input.old) (R.remaining input.new) result buffer.new }
{
    input.read(buffer)
}

// Writes once from the bytes: how many of them, from the first on, were taken, which may be fewer than all. A writer whose bytes are
// known has these behind them.
pub fn write_some<W: Write>(output: &mut W, bytes: &[u8]) -> io::Result<usize>
    ensures count { Moved (length bytes.now) result }
    ensures bytes { WriteAppends (W.contents output.old) (W.contents output.new) result bytes.now }
{
    output.write(bytes)
}

// How many of the buffer's bytes a read or a write has moved: none where it failed, and never more than the buffer has.
pub fn count(got: Option<usize>, buffer: &[u8]) -> usize
    ensures in_bounds { result ≤ length buffer.now }
    ensures value { result ≡ clamp_len got (length buffer.now) }
{
    got.map_or(0, |n| n.min(buffer.len()))
}

// A stream of lines, read out of a file through a buffer that goes with it.
use crate::error::CaseError;
use cells::parts;
use std::fs::File;
use std::io::Read;
use std::ops::ControlFlow;
use text::number::Part;

// How many bytes of a file are read at once at most.
const PIECE: usize = 4096;

// An open file, the buffer that it is read through (std's own takes it from the heap, and there is none), how many bytes of it were
// read, and where the next one stands.
#[derive(Drop)]
pub struct Source {
    file: File,
    buffer: [u8; PIECE],
    len: usize,
    at: usize,
}

// After digits: what was read of a line after those that these bytes begin with, and the bytes behind them. Where what was read is no
// digits, no byte is used. It is a loop of its own for speed: `feed` asks at each byte what was read so far, and here that is known.
fn digits(mut part: Part, bytes: &[u8]) -> (Part, &[u8]) {
    if !matches!(part, Part::Digits { .. }) {
        return (part, bytes);
    }
    for (n, b) in bytes.iter().enumerate() {
        if !b.is_ascii_digit() {
            return (part, &bytes[n..]);
        }
        part = part.feed(*b);
    }
    (part, &[])
}

// What was read of a line after these bytes more; where the line ends among them, the line, and how many are left behind its end.
fn fed(mut part: Part, bytes: &[u8]) -> ControlFlow<(Part, usize), Part> {
    let mut rest = bytes;
    // each turn uses a byte at least
    for _ in 0..bytes.len() {
        let Some((b, more)) = rest.split_first() else {
            return ControlFlow::Continue(part);
        };
        if *b == b'\n' {
            return ControlFlow::Break((part, more.len()));
        }
        (part, rest) = digits(part.feed(*b), more);
    }
    ControlFlow::Continue(part)
}

impl Source {
    // An open file, before its first byte is read.
    pub fn new(file: File) -> Source {
        Source {
            file,
            buffer: [0; PIECE],
            len: 0,
            at: 0,
        }
    }

    // The bytes that were read and are not used up; where there are none, the file is read on.
    fn rest(&mut self) -> Result<&[u8], CaseError> {
        if self.len <= self.at {
            self.len = self.file.read(&mut self.buffer).map_err(CaseError::Unread)?;
            self.at = 0;
        }
        Ok(parts::part(&self.buffer, self.at, self.len.saturating_sub(self.at)))
    }

    // The next line as a number, if there is a line; the last line end may be missing. A line of more pieces than can be counted is bad.
    pub fn line(&mut self) -> Result<Option<Part>, CaseError> {
        let mut part = Part::Start;
        for _ in 0..u64::MAX {
            let rest = self.rest()?;
            if rest.is_empty() {
                return Ok((part != Part::Start).then_some(part));
            }
            match fed(part, rest) {
                ControlFlow::Continue(longer) => {
                    part = longer;
                    self.at = self.len;
                }
                ControlFlow::Break((line, left)) => {
                    self.at = self.len.saturating_sub(left);
                    return Ok(Some(line));
                }
            }
        }
        Err(CaseError::Bad)
    }
}

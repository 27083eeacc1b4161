// The cases of one file, by its kind.
use crate::kind::{Cases, Kind};
use crate::{compiles, kind, supplier_cases, window_cases};
use cases::error::CaseError;
use cases::stream::Source;
use cases::{numbers, out};
use machine_cases::{advance, long, programs};
use std::fs::File;
use std::io::Stdout;
use std::{io, str};

// Answers the next case of a kind.
fn case(output: Stdout, kind: Cases, source: &mut Source) -> Result<(), CaseError> {
    match kind {
        Cases::Verdict => programs::verdict(output, source),
        Cases::Compile => compiles::case(output, source),
        Cases::Windows => window_cases::case(output, source),
        Cases::Supplier => supplier_cases::case(output, source),
        Cases::Fresh => programs::fresh(output, source),
        Cases::Advance => advance::advance(output, source),
        Cases::Run => advance::run(output, source),
        Cases::Long => long::case(output, source),
    }
}

// Answers all cases of a file, which must end behind them.
fn all(output: Stdout, kind: Cases, source: &mut Source) -> Result<(), CaseError> {
    let n = numbers::count(source)?;
    for _ in 0..n {
        case(output, kind, source)?;
    }
    numbers::finish(source)
}

// Writes a line to standard error: the file's name, a colon and what the system says of it.
fn complain(rt: HostRuntime, name: &[u8], error: io::Error) {
    let errors = rt.stderr();
    let _ = errors.write_all(name);
    let _ = errors.print(": ");
    let _ = errors.println(error);
}

// Answers the cases of an open file. Where they end early for what the file holds, a line says so.
#[inline(never)]
fn cases_of(rt: HostRuntime, kind: Cases, name: &[u8], file: File) -> io::Result<()> {
    let output = rt.stdout();
    let mut source = Source::new(file);
    match all(output, kind, &mut source) {
        Ok(()) => Ok(()),
        Err(CaseError::Bad) => out::say(output, "bad input: ", name),
        Err(CaseError::Unread(error)) => {
            complain(rt, name, error);
            out::say(output, "bad input: ", name)
        }
        Err(CaseError::Unwritten(error)) => Err(error),
    }
}

// Opens the file of this name to read it. A name that is no text is no file's.
#[inline(never)]
fn open(rt: HostRuntime, name: &[u8]) -> io::Result<File> {
    match str::from_utf8(name) {
        Ok(path) => File::open(&rt, path),
        Err(_) => Err(io::Error::from(io::ErrorKind::NotFound)),
    }
}

// Answers what the shipped program reads, by its body; a write that fails there does not keep the next file from being answered.
#[inline(never)]
fn shipped(mut output: Stdout, mut file: File) {
    let _ = shell::run(&mut file, &mut output);
}

// Answers the file of this name; it fails where a write does. What asks for much stack stays apart (`inline(never)`), so that a file
// asks for that of its own kind alone.
pub fn file(rt: HostRuntime, name: &[u8]) -> io::Result<()> {
    let output = rt.stdout();
    match open(rt, name) {
        Err(error) => {
            complain(rt, name, error);
            out::say(output, "no file: ", name)
        }
        Ok(file) => match kind::of(name) {
            None => out::say(output, "unknown kind: ", name),
            Some(Kind::Cases(kind)) => cases_of(rt, kind, name, file),
            Some(Kind::Main) => {
                shipped(output, file);
                Ok(())
            }
        },
    }
}

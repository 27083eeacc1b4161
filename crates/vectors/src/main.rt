// Answers files of cases, each by its kind: the last part of the file's name, up to its first dot.
#![tactic(auto)]

mod answered;
mod compiles;
mod kind;
mod supplier_cases;
mod window_cases;

use std::env::FillError;
use std::io;
use std::rt::Env;

// How many bytes of a file's name are kept.
const NAME: usize = 4096;

// How many arguments there are, the program's own name among them.
fn count(rt: HostRuntime) -> usize {
    let mut name = [0u8; NAME];
    for n in 0..usize::MAX {
        if let Err(FillError::NotPresent) = rt.arg(n, &mut name) {
            return n;
        }
    }
    usize::MAX
}

// Answers all cases of the file that argument i names. A name that does not fit the buffer is cut to it, and no file has so long a name.
fn answer(rt: HostRuntime, i: usize) -> io::Result<()> {
    let mut name = [0u8; NAME];
    match rt.arg(i, &mut name) {
        Ok(n) => answered::file(rt, &name[..n]),
        Err(_) => answered::file(rt, &name),
    }
}

// Answers the files one after the other; where a write fails, nothing follows.
fn main(rt: HostRuntime) {
    let n = count(rt);
    if n < 2 {
        let _ = rt.println("usage: vectors FILE..");
        return;
    }
    for i in 1..n {
        if answer(rt, i).is_err() {
            return;
        }
    }
}

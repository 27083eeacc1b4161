// Shows which intervals hold a missing reading: only one that starts at the no-reading value.
#![tactic(auto)]

use readings::Reading;
use std::io;
use std::io::Stdout;

// Prints on a line whether an interval holds a value.
fn line(output: Stdout, value: i32, low: i32, high: i32) -> io::Result<()> {
    if Reading(value).is_missing() {
        output.print("no reading")?;
    } else {
        print!(output; "reading {value}")?;
    }
    let side = if Reading(value).within(low, high) {
        "inside"
    } else {
        "outside"
    };
    println!(output; ", interval {low}..{high}: {side}")
}

// Holds three readings against one interval: a small one, none, and the largest.
fn three(output: Stdout, low: i32, high: i32) -> io::Result<()> {
    for value in [5, Reading::NO_READING, i32::MAX] {
        line(output, value, low, high)?;
    }
    Ok(())
}

fn main(rt: HostRuntime) -> io::Result<()> {
    let output = rt.stdout();
    three(output, 0, 9)?;
    three(output, -i32::MAX, i32::MAX)?;
    three(output, Reading::NO_READING, Reading::NO_READING)
}

// The shipped program: a program's tables as numbers on standard input; the compiling verdict and the E listing on standard output.
// Where these could not be written whole, a line on standard error says so.
#![tactic(auto)]

fn main(rt: HostRuntime) {
    let mut input = rt.stdin();
    let mut output = rt.stdout();
    if shell::run(&mut input, &mut output).is_err() {
        let _ = rt.eprintln("toporasca: the output was cut short");
    }
}

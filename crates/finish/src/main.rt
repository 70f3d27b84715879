// The program `finish`: reads a step file of `world` from standard input, and prints the steps that
// close one more instance.
#![tactic(auto)]

use finish_io::OUTPUT_BYTES;
use std::process::ExitCode;

// An output that could not be written ends it with status 1. Each program has its own buffer, so
// each has a `main`; the rest is the library's.
fn main(rt: HostRuntime) -> ExitCode {
    let mut out = [0; OUTPUT_BYTES];
    let exchange = finish_io::run(
        &mut rt.stdin(),
        &mut rt.stdout(),
        &mut rt.stderr(),
        &mut out,
    );
    exchange.status()
}

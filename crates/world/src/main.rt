// The program `world`: reads a step file from standard input, and prints the answers and the world.
#![tactic(auto)]

use std::process::ExitCode;
use world_io::OUTPUT_BYTES;

// An output that could not be written ends it with status 1. Each program has its own buffer, so
// each has a `main`; the rest is the library's.
fn main(rt: HostRuntime) -> ExitCode {
    let mut out = [0; OUTPUT_BYTES];
    let exchange = world_io::run(
        &mut rt.stdin(),
        &mut rt.stdout(),
        &mut rt.stderr(),
        &mut out,
    );
    exchange.status()
}

// Runs `world` on each file that an argument names, and prints its name before what it prints.
#![tactic(auto)]

use std::fs::File;
use std::io;
use text_io::files::OnFile;
use world_io::OUTPUT_BYTES;

struct World;

impl OnFile for World {
    fn run(rt: &HostRuntime, file: &mut File) -> io::Result<()> {
        let mut out = [0; OUTPUT_BYTES];
        world_io::run(file, &mut rt.stdout(), &mut rt.stderr(), &mut out);
        Ok(())
    }
}

fn main(rt: HostRuntime) -> io::Result<()> {
    text_io::files::each::<World>(&rt)
}

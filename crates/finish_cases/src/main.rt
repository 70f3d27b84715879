// Runs `finish` on each file that an argument names, and prints its name before what it prints.
#![tactic(auto)]

use finish_io::OUTPUT_BYTES;
use std::fs::File;
use std::io;
use text_io::files::OnFile;

struct Finish;

impl OnFile for Finish {
    fn run(rt: &HostRuntime, file: &mut File) -> io::Result<()> {
        let mut out = [0; OUTPUT_BYTES];
        finish_io::run(file, &mut rt.stdout(), &mut rt.stderr(), &mut out);
        Ok(())
    }
}

fn main(rt: HostRuntime) -> io::Result<()> {
    text_io::files::each::<Finish>(&rt)
}

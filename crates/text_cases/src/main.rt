// Runs a closure on each file that an argument names, in order: it prints how many bytes the file's
// first piece has, and a value that the closure keeps, how many arguments are read.
#![tactic(auto)]

use std::env::{Env, FillError};
use std::fs::File;
use std::io;
use text_io::files::{self, Argument, MAX_FILES};

// The first piece of a file has at most this many bytes.
const PIECE_BYTES: usize = 64;

// How many arguments are read.
fn arguments(rt: &HostRuntime) -> usize {
    let mut none = [0; 0];
    for i in 1..=MAX_FILES {
        if let Err(FillError::NotPresent) = rt.arg(i, &mut none) {
            return i - 1;
        }
    }
    MAX_FILES
}

// A closure is run on each file, and its name is printed before.
fn each<F: Fn(&HostRuntime, &mut File) -> io::Result<()>>(
    rt: &HostRuntime,
    run: F,
) -> io::Result<()>
    requires { F.IsAlwaysCallable run }
{
    for i in 1..=MAX_FILES {
        match files::named(rt, i)? {
            Argument::Opened(mut file) => run(rt, &mut file)?,
            Argument::Unopened => {}
            Argument::Nothing => break,
        }
    }
    Ok(())
}

fn main(rt: HostRuntime) -> io::Result<()> {
    let count = arguments(&rt);
    each(&rt, |rt, file| {
        let mut piece = [0; PIECE_BYTES];
        let got = text_io::read_piece(file, &mut piece);
        println!(rt; "{got} bytes, {count} arguments")
    })
}

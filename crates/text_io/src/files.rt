// The files that the arguments of a program name.
ghost use Rattle.std.specs.Prelude.{◌≡◌, ◌<◌, Ok};
ghost use Rattle.text_io.specs.declared.files.Argument.TheVariants.{Nothing};
ghost use Rattle.text_io.specs.Files.{max_files};

use std::env::{Env, FillError};
use std::fs::File;
use std::io;
use std::io::{ErrorKind, Write};

// A name has at most this many bytes. A longer one counts as empty.
const NAME_BYTES: usize = 4096;

// Arguments behind these are not read.
pub const MAX_FILES: usize = 999;

fn open(rt: &HostRuntime, name: &[u8]) -> io::Result<File> {
    match str::from_utf8(name) {
        Ok(path) => File::open(rt, path),
        Err(_) => Err(io::Error::from(ErrorKind::InvalidInput)),
    }
}

// What is run on a file.
pub trait OnFile {
    fn run(rt: &HostRuntime, file: &mut File) -> io::Result<()>;
}

// Prints the name, and runs what is to be run on the file.
fn one<F: OnFile>(rt: &HostRuntime, name: &[u8]) -> io::Result<()> {
    rt.stdout().write_all(name)?;
    rt.stdout().write_all(b"\n")?;
    match open(rt, name) {
        Ok(mut file) => F::run(rt, &mut file),
        Err(e) => {
            rt.stderr().write_all(name)?;
            eprintln!(rt; ": {e}")
        }
    }
}

// Runs it on each file that an argument names, in order, and prints the file's name before. A file
// that cannot be opened is said to the errors.
pub fn each<F: OnFile>(rt: &HostRuntime) -> io::Result<()> {
    let mut name = [0; NAME_BYTES];
    for i in 1..=MAX_FILES {
        match rt.arg(i, &mut name) {
            Ok(n) => one::<F>(rt, &name[..n])?,
            Err(FillError::TooLong) => one::<F>(rt, b"")?,
            Err(FillError::NotPresent) => break,
        }
    }
    Ok(())
}

// What an argument gives.
#[derive(Drop)]
pub enum Argument {
    // There is no such argument, or it stands behind the last that is read.
    Nothing,
    // Its file could not be opened, and that was said to the errors.
    Unopened,
    Opened(File),
}

// Prints the name, and opens its file.
fn opened(rt: &HostRuntime, name: &[u8]) -> io::Result<Argument> {
    rt.stdout().write_all(name)?;
    rt.stdout().write_all(b"\n")?;
    match open(rt, name) {
        Ok(file) => Ok(Argument::Opened(file)),
        Err(e) => {
            rt.stderr().write_all(name)?;
            eprintln!(rt; ": {e}")?;
            Ok(Argument::Unopened)
        }
    }
}

// Prints the name that argument i gives, and opens its file: 1 is the first argument, and those
// behind the last that is read give nothing. A file that cannot be opened is said to the errors.
// `each` does so with one argument after the other. Here a caller does with the file what it likes,
// and may run a closure on it. It fails where the name or the error cannot be printed.
pub fn named(rt: &HostRuntime, i: usize) -> io::Result<Argument>
    ensures { max_files < i → result ≡ Ok Nothing }
{
    if i > MAX_FILES {
        return Ok(Argument::Nothing);
    }
    let mut name = [0; NAME_BYTES];
    match rt.arg(i, &mut name) {
        Ok(n) => opened(rt, &name[..n]),
        Err(FillError::TooLong) => opened(rt, b""),
        Err(FillError::NotPresent) => Ok(Argument::Nothing),
    }
}

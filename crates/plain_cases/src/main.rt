// Runs `plain` on each file that an argument names, and prints its name before what it prints.
// After that it prints which stores are involved in each transaction, which `plain` does not.
#![tactic(auto)]

use log_core::Log;
use log_entry::limits::{STORES, TRANSACTIONS};
use plain_io::OUTPUT_BYTES;
use std::fs::File;
use std::io;
use std::io::Write;
use text_io::files::OnFile;

// The transaction, and for each store the number of its involvement.
fn involvement(rt: &HostRuntime, log: Log, tx: u8) -> io::Result<()> {
    print!(rt; "tx={tx} involvement=")?;
    for s in 0..STORES {
        let i = log.involvement(tx, s);
        let n = i.number();
        print!(rt; "{n}")?;
    }
    rt.stdout().write_all(b"\n")
}

// Of each transaction with a kept vote, and of a number that is no transaction.
fn involvements(rt: &HostRuntime, log: Log) -> io::Result<()> {
    for tx in 0..TRANSACTIONS {
        let row = log.rows[usize::from(tx)];
        if row.any_kept() {
            involvement(rt, log, tx)?;
        }
    }
    involvement(rt, log, TRANSACTIONS)
}

struct Plain;

impl OnFile for Plain {
    fn run(rt: &HostRuntime, file: &mut File) -> io::Result<()> {
        let mut out = [0; OUTPUT_BYTES];
        let ran = plain_io::run(file, &mut rt.stdout(), &mut rt.stderr(), &mut out);
        let session = ran.reading.input.finish();
        involvements(rt, session.log)
    }
}

fn main(rt: HostRuntime) -> io::Result<()> {
    text_io::files::each::<Plain>(&rt)
}

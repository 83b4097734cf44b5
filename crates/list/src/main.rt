// Reads a tape (the first 2,048 bytes, no more) from standard input and prints its listing: limit 64, 4,096 bytes of output.
#![tactic(auto)]

use listing::whole::listing;
use std::alloc::Global;
use std::io;
use std::io::{Read, Write};

fn list_tape(
    tape: &[u8],
    output: &mut [u8],
    work: &mut [u8],
    writer: &mut impl Write,
) -> io::Result<()> {
    match listing(tape, output, work) {
        Some(r) => writer.write_all(&work[r.from..r.to]),
        None => Ok(()),
    }
}

// A tree of 4,096 bytes has a text of fewer than 800,000: the most is made by some 180 symbols of one text of some 2,000 bytes to be escaped.
fn run(alloc: Global, tape: &[u8], writer: &mut impl Write) -> io::Result<()> {
    let mut output = [0u8; 4096];
    let mut work = vec![in alloc; 0; 1048576]?;
    list_tape(tape, &mut output, &mut work, writer)
}

fn main(rt: HostRuntime) -> io::Result<()> {
    let mut tape = Vec::new(rt.alloc());
    rt.stdin().take(2048).read_to_end(&mut tape)?;
    run(rt.alloc(), &tape, &mut rt.stdout())
}

// Reads cases from standard input, one to a line, puts the tape of each to the call that the line names and prints the answer.
//
// A line is the call, `validate`, `resolve`, `levels`, `macros` or `whole`, a name, and words, a space before each. A word is bytes as pairs of
// digits 0 to 9 and A to F; `NxHH..`, such bytes N times; `aN`, N atoms of three letters, each another; `lN`, the limit of `macros` and `whole`;
// `oN` and `wN`, which make the output and the work buffer N bytes long. Without such a word the limit is 64, the output is as long as the tape,
// that of `validate` empty, and work has 8 bytes for each byte of both. Printed: call and name, then `yes`, the length and, where a tree is
// written, its bytes, `-` for none; or `refused`, the number and the place; then `output` or `work` where that buffer doesn't hold what it must.
// A line that is none of this, or that asks for more room than there is, prints `bad`.
//
// tools/cases.sh writes both files. The lines of `validate` are by tools/cases.py, from document 01. Those of the other calls are stored answers:
// 5 to 19 and the trees are LALRPOP's own, 1 to 4, 20 and 21 by the second reading of document 01 (rust/compare/src/chosen.rs, chosen_rounds.rs).
// A line whose name begins with `reading-22`, `reading-28` or `reading-29` shows that reading of document 01 (rust/compare/src/stated.rs).
#![tactic(auto)]

use buffers::Buffers;
use lines::run_lines;
use std::alloc::Global;
use std::io;
use std::io::{BufWriter, Read, Write};

mod buffers;
mod call;
mod line;
mod lines;
mod report;
mod tape;

fn run(alloc: Global, input: &[u8], writer: &mut impl Write) -> io::Result<()> {
    let mut buffers = Buffers {
        tape: vec![in alloc; 0; 400000]?,
        output: vec![in alloc; 0; 16384]?,
        work: vec![in alloc; 0; 3200000]?,
    };
    run_lines(input, &mut buffers, writer)
}

// The first 1,048,576 bytes are read, and no more.
fn run_read(alloc: Global, reader: impl Read + Drop, writer: &mut impl Write) -> io::Result<()> {
    let mut input = Vec::new(alloc);
    reader.take(1048576).read_to_end(&mut input)?;
    run(alloc, &input, writer)
}

fn main(rt: HostRuntime) -> io::Result<()> {
    let mut writer = BufWriter::new(rt.alloc(), rt.stdout())?;
    run_read(rt.alloc(), rt.stdin(), &mut writer)?;
    writer.flush()
}

// The lines of the input, one after another.
use crate::buffers::Buffers;
use crate::line::run_line;
use std::io;
use std::io::Write;

pub fn run_lines(input: &[u8], buffers: &mut Buffers, writer: &mut impl Write) -> io::Result<()> {
    for line in input.split_inclusive(|b| *b == b'\n') {
        run_line(line.strip_suffix(b"\n").unwrap_or(line), buffers, writer)?;
    }
    Ok(())
}

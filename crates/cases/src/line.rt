// One line: its case built and run.
ghost use Rattle.std.specs.Prelude.{◌≤◌, length};

use crate::buffers::Buffers;
use crate::call::{Call, ROUNDS};
use crate::report::run_case;
use crate::tape::put_word;
use notation::words::{decimal, find};
use std::io;
use std::io::Write;

// A case so far: the length of its tape, its limit, and the lengths of the buffers where a word gave one.
#[derive(Clone, Copy)]
struct Case {
    tape: usize,
    limit: usize,
    output: Option<usize>,
    work: Option<usize>,
}

impl Case {
    // With one word more; None of a word that is none.
    fn with(self, word: &[u8], tape: &mut [u8]) -> Option<Case> {
        match word {
            [b'o', rest @ ..] => Some(Case {
                output: Some(decimal(rest)?),
                ..self
            }),
            [b'w', rest @ ..] => Some(Case {
                work: Some(decimal(rest)?),
                ..self
            }),
            [b'l', rest @ ..] => Some(Case {
                limit: decimal(rest)?,
                ..self
            }),
            _ => Some(Case {
                tape: put_word(word, tape, self.tape)?,
                ..self
            }),
        }
    }

    fn output_length(self, call: Call) -> usize {
        self.output.unwrap_or(call.output_length(self.tape))
    }

    // 8 bytes for each byte of tape and output, unless the case says another length; None where that is no number.
    fn work_length(self, output: usize) -> Option<usize> {
        match self.work {
            Some(n) => Some(n),
            None => self.tape.checked_add(output)?.checked_mul(8),
        }
    }
}

// The words of a line from a place on, where a space stands before each.
fn read_words(line: &[u8], from: usize, tape: &mut [u8]) -> Option<Case> {
    let mut c = Case {
        tape: 0,
        limit: ROUNDS,
        output: None,
        work: None,
    };
    let mut at = from;
    while at < line.len() {
        let end = find(line, b' ', at + 1);
        c = c.with(&line[at + 1..end], tape)?;
        at = end;
    }
    Some(c)
}

fn print_bad(writer: &mut impl Write) -> io::Result<()> {
    writer.write_all(b"bad\n")
}

// The case whose buffers are n, o and w bytes long.
fn run_sized(
    head: &[u8],
    call: Call,
    n: usize,
    o: usize,
    w: usize,
    buffers: &mut Buffers,
    writer: &mut impl Write,
) -> io::Result<()> {
    let (Some(tape), Some(output), Some(work)) = (
        buffers.tape.as_slice().get(..n),
        buffers.output.as_mut_slice().get_mut(..o),
        buffers.work.as_mut_slice().get_mut(..w),
    ) else {
        return print_bad(writer);
    };
    run_case(head, call, tape, output, work, writer)
}

// The case whose call and name are the line's first bytes.
fn run_named(
    line: &[u8],
    end: usize,
    call: Call,
    buffers: &mut Buffers,
    writer: &mut impl Write,
) -> io::Result<()>
    requires { end ≤ length line.now }
{
    let Some(c) = read_words(line, end, &mut buffers.tape) else {
        return print_bad(writer);
    };
    let o = c.output_length(call);
    let Some(w) = c.work_length(o) else {
        return print_bad(writer);
    };
    let call = call.within(c.limit);
    run_sized(&line[..end], call, c.tape, o, w, buffers, writer)
}

pub fn run_line(line: &[u8], buffers: &mut Buffers, writer: &mut impl Write) -> io::Result<()> {
    let space = find(line, b' ', 0);
    let Some(call) = Call::named(&line[..space]) else {
        return print_bad(writer);
    };
    if space == line.len() {
        return print_bad(writer);
    }
    let end = find(line, b' ', space + 1);
    if end == space + 1 {
        return print_bad(writer);
    }
    run_named(line, end, call, buffers, writer)
}

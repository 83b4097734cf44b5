// One case run, and its answer printed.
use crate::call::Call;
use notation::bytes::put_digits;
use output::room::enough;
use parse_tree::refusal::Refusal;
use std::io;
use std::io::Write;

// What the buffers hold before a case.
const BEFORE: u8 = 0xAA;

fn print_number(before: &[u8], n: usize, writer: &mut impl Write) -> io::Result<()> {
    writer.write_all(before)?;
    write!(writer, "{n}")
}

// Whether every byte is this one.
fn is_all(work: &[u8], byte: u8) -> bool {
    work.iter().all(|b| *b == byte)
}

// The bytes as digits: of 16,384 at most, which is the longest output.
fn print_bytes(bytes: &[u8], writer: &mut impl Write) -> io::Result<()> {
    let mut text = [0u8; 32768];
    let n = put_digits(bytes, &mut text, 0);
    if n <= text.len() {
        writer.write_all(&text[..n])?;
    }
    Ok(())
}

// The tree at the front of the output, and whether the old bytes stand behind it.
fn print_tree(output: &[u8], n: usize, writer: &mut impl Write) -> io::Result<()> {
    if output.len() < n {
        return writer.write_all(b" output");
    }
    if n == 0 {
        writer.write_all(b" -")?;
    } else {
        writer.write_all(b" ")?;
    }
    print_bytes(&output[..n], writer)?;
    print_untouched(&output[n..], writer)
}

// Whether the old bytes stand in all of the output.
fn print_untouched(output: &[u8], writer: &mut impl Write) -> io::Result<()> {
    if !is_all(output, BEFORE) {
        writer.write_all(b" output")?;
    }
    Ok(())
}

// What a yes left in the output.
fn print_output(call: Call, output: &[u8], n: usize, writer: &mut impl Write) -> io::Result<()> {
    if call.writes() {
        print_tree(output, n, writer)
    } else {
        print_untouched(output, writer)
    }
}

fn print_answer(
    call: Call,
    a: Result<usize, Refusal>,
    output: &[u8],
    writer: &mut impl Write,
) -> io::Result<()> {
    match a {
        Ok(n) => {
            print_number(b" yes ", n, writer)?;
            print_output(call, output, n, writer)
        }
        Err(r) => {
            print_number(b" refused ", r.number, writer)?;
            print_number(b" ", r.from, writer)?;
            print_number(b" ", r.to, writer)?;
            print_untouched(output, writer)
        }
    }
}

// What the work buffer must hold afterwards: it is zeroed where it suffices, and otherwise untouched.
fn after(tape: usize, output: usize, work: usize) -> u8 {
    if enough(tape, output, work) {
        0
    } else {
        BEFORE
    }
}

pub fn run_case(
    head: &[u8],
    call: Call,
    tape: &[u8],
    output: &mut [u8],
    work: &mut [u8],
    writer: &mut impl Write,
) -> io::Result<()> {
    output.fill(BEFORE);
    work.fill(BEFORE);
    let a = call.ask(tape, output, work);
    writer.write_all(head)?;
    print_answer(call, a, output, writer)?;
    let o = call.output_length(output.len());
    if !is_all(work, after(tape.len(), o, work.len())) {
        writer.write_all(b" work")?;
    }
    writer.write_all(b"\n")
}

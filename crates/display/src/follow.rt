// Bytes of printed forms held against a text t. And what sinks read of a command: the text whose number stands at a place, the byte of a repeat.
ghost use Rattle.std.specs.Prelude.{◌≡◌, Some, [], ◌∷◌, ◌+◌, ◌≤◌, length};
ghost use Rattle.texts.specs.Table.{texts};
ghost use Rattle.display.specs.Follow.{met_by, word_at, op_byte, held_more};

use crate::sink::Sink;
use grades::words::Words;
use octets::numbers::atom_at;

// The place in t behind the byte b, if it stands at i. None, here and below, after a difference.
fn meet_byte(t: &[u8], i: usize, b: u8) -> Option<usize>
    ensures { result ≡ met_by t.now (Some i) (b ∷ []) }
{
    if i < t.len() && t[i] == b {
        Some(i + 1)
    } else {
        None
    }
}

// Behind the bytes of x.
pub fn meet(t: &[u8], i: usize, x: &[u8]) -> Option<usize>
    ensures { result ≡ met_by t.now (Some i) x.now }
{
    let mut p = i;
    for b in x {
        p = meet_byte(t, p, *b)?;
    }
    Some(p)
}

// A text that a form is held against, and the place in it behind what was met.
#[derive(Clone, Copy)]
pub struct Held<'a> {
    pub text: &'a [u8],
    pub at: Option<usize>,
}

impl Sink for Held<'_> {
    ghost more = { held_more };

    fn byte(&mut self, b: u8) {
        if let Some(i) = self.at {
            self.at = meet_byte(self.text, i, b);
        }
    }

    fn run(&mut self, x: &[u8]) {
        if let Some(i) = self.at {
            self.at = meet(self.text, i, x);
        }
    }
}

// The text whose number stands at a place.
pub fn word<'a>(words: Words<'a>, at: usize) -> &'a [u8]
    requires { at + words.width.bytes ≤ length words.work.now }
    ensures { result.now ≡ word_at words.entry.width.bytes (texts words.entry.tape.now words.entry.work.now words.entry.m) words.entry.work.now at }
{
    words.text(atom_at(words.work, at, words.width) as usize)
}

// The byte of a repeat.
pub fn op_byte(op: u8) -> u8
    ensures { result ≡ op_byte op }
{
    match op {
        0 => b'*',
        1 => b'+',
        _ => b'?',
    }
}

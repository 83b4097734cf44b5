// One new text of a round: its length, its atom and its record.
ghost use Rattle.std.specs.Prelude.{◌≡◌, length};
ghost use Rattle.texts.specs.Forms.{stop};
ghost use Rattle.expander.specs.declared.entries.NewText.{NewText};
ghost use Rattle.expander.specs.Ground.{list_at, Grounded};
ghost use Rattle.expander.specs.Entries.{entry_code};
ghost use Rattle.expander.specs.Names.{described_by};
ghost use Rattle.settling.specs.One.{new_cell, TextPut, Entry, Puttable, TextReady, Written};

use crate::atom::put_atom_text;
use crate::built::{built_length, put_built};
use crate::copied::Print;
use expander::Ground;
use expander::cells::TextCell;
use expander::entries::{NewText, entry};
use texts::fields::{cell, hash, mark, write};
use texts::mark::TextMark;

// The length of a new text, stopped at 65,536. `tape` for the clauses alone.
pub fn text_length(tape: &[u8], work: &[u8], g: &Ground, x: NewText) -> usize
    requires { Grounded tape.now work.now g.now × Entry tape.now work.now g.now (entry_code x) }
    ensures { result ≡ stop (length (described_by tape.now work.now g.now (entry_code x))) }
{
    match x {
        NewText::Print(j) => cell(work, g.keys, j) as usize,
        NewText::BuiltIn(k) => built_length(k),
    }
}

// The print of the symbol of record j, which has len bytes, as an atom that ends at x.lim; says its hash.
fn put_print(tape: &[u8], work: &mut [u8], x: &Print, j: usize, len: usize) -> u32
    requires { Puttable tape.now work.old x.now.g x.now.first (entry_code (NewText.Print j)) len x.now.lim }
    ensures { TextPut work.old (described_by tape.now work.old x.now.g (entry_code (NewText.Print j))) x.now.lim result work.new }
{
    let p = mark(work, x.g.keys, j);
    let h = hash(work, x.g.keys, j);
    put_atom_text(tape, work, x, p, len);
    h
}

// A new text, which has len bytes, as such an atom.
fn put_new(tape: &[u8], work: &mut [u8], x: &Print, y: NewText, len: usize) -> u32
    requires { Puttable tape.now work.old x.now.g x.now.first (entry_code y) len x.now.lim }
    ensures { TextPut work.old (described_by tape.now work.old x.now.g (entry_code y)) x.now.lim result work.new }
{
    match y {
        NewText::Print(j) => put_print(tape, work, x, j, len),
        NewText::BuiltIn(k) => put_built(work, k, x.lim),
    }
}

// The cell of a new text: a print counts as pushed, a built-in text doesn't. A number in fixed memory.
fn new_cell(x: NewText) -> u32
    ensures { result ≡ new_cell (entry_code x) }
{
    let c = TextCell(0);
    match x {
        NewText::Print(_) => c.pushed().0,
        NewText::BuiltIn(_) => c.0,
    }
}

// The i-th new text as an atom that ends at `end`, and its record; says where it begins.
pub fn write_text(tape: &[u8], work: &mut [u8], g: &Ground, i: usize, end: usize) -> usize
    requires { TextReady tape.now work.old g.now i end }
    ensures { Written tape.now work.old g.now i (described_by tape.now work.old g.now (list_at work.old g.now i)) end result work.new }
{
    let y = entry(work, g.m, i);
    let len = text_length(tape, work, g, y);
    let x = Print {
        g: *g,
        first: g.m.count + i + 1,
        lim: end,
    };
    let h = put_new(tape, work, &x, y, len);
    let to = end - (len + 3);
    let z = TextMark::in_work(tape, to);
    write(work, g.m.base, g.m.count + i, z.number, h, new_cell(y));
    to
}

// What a printed form is written to, byte by byte or run by run; what stands in a form before the symbols straight inside a command, between them and behind them; and the forms of symbols.
ghost use Rattle.std.specs.Prelude.{List, ℕ, [], ◌∷◌, ◌+◌, ◌≤◌, length};
ghost use Rattle.parse_tree.specs.Plain.Display.{escaped};
ghost use Rattle.parse_tree.specs.Working.Nodes.{long_of};
ghost use Rattle.texts.specs.declared.Map.{Map};
ghost use Rattle.texts.specs.Table.{texts};
ghost use Rattle.display.specs.Standing.{SomeSym, SomeSyms};
ghost use Rattle.display.specs.Sink.{Taken, PrintsSymbol, PrintsList};
ghost use Rattle.display.specs.Follow.{quoted_text, word_at, leaf_text, mark_text, label_text, name_text, before_by, behind_by, between_by};

use crate::follow::{op_byte, word};
use grades::words::Words;
use parse_tree::nested::inside;
use parse_tree::size::long;

pub trait Sink {
    // What it becomes by a byte.
    ghost more: { Self → ℕ → Self };

    // What it has to know of a table to take a text of it: mostly nothing is asked.
    ghost knows: { List ℕ → List ℕ → Map → Type 0 } = { λ _ _ _. Unit {0} };

    fn byte(&mut self, b: u8)
        ensures { Taken more self.old (b ∷ []) self.new };

    fn run(&mut self, x: &[u8])
        ensures { Taken more self.old x.now self.new };

    // The text whose number stands at a place.
    fn text(&mut self, words: Words, at: usize)
        requires { knows words.tape.now words.work.now words.m × (at + words.width.bytes ≤ length words.work.now) }
        ensures { Taken more self.old (word_at words.entry.width.bytes (texts words.entry.tape.now words.entry.work.now words.entry.m) words.entry.work.now at) self.new }
    {
        self.run(word(words, at));
    }
}

// A byte as it stands between quotes.
fn escape<S: Sink>(s: &mut S, b: u8)
    ensures { Taken S.more s.old (escaped (b ∷ []) []) s.new }
{
    if b == b'"' || b == b'\\' {
        s.byte(b'\\');
        s.byte(b);
    } else {
        s.byte(b);
    }
}

// The bytes of x as they stand between quotes.
fn escapes<S: Sink>(s: &mut S, x: &[u8])
    ensures { Taken S.more s.old (escaped x.now []) s.new }
{
    for b in x {
        escape(s, *b);
    }
}

// With the quotes.
fn quoted<S: Sink>(s: &mut S, x: &[u8])
    ensures { Taken S.more s.old (quoted_text x.now) s.new }
{
    s.byte(b'"');
    escapes(s, x);
    s.byte(b'"');
}

// A leaf of the code c, the number of whose text stands at a place.
fn leaf<S: Sink>(s: &mut S, words: Words, at: usize, c: u8)
    requires { S.knows words.tape.now words.work.now words.m × (at + words.width.bytes ≤ length words.work.now) }
    ensures { Taken S.more s.old (leaf_text c (word_at words.entry.width.bytes (texts words.entry.tape.now words.entry.work.now words.entry.m) words.entry.work.now at)) s.new }
{
    match c {
        34 => quoted(s, word(words, at)),
        35 => {
            s.run(b"r#");
            quoted(s, word(words, at));
            s.byte(b'#');
        }
        _ => s.text(words, at),
    }
}

// A leaf that has no text: `@L`, `@R`, `error`.
fn mark<S: Sink>(s: &mut S, c: u8)
    ensures { Taken S.more s.old (mark_text c) s.new }
{
    match c {
        42 => s.run(b"@L"),
        43 => s.run(b"@R"),
        _ => s.run(b"error"),
    }
}

// `mut `, if the byte of a name says so.
fn label<S: Sink>(s: &mut S, b: u8)
    ensures { Taken S.more s.old (label_text b) s.new }
{
    if b == 1 {
        s.run(b"mut ");
    }
}

// `x:` or `mut x:`.
fn name<S: Sink>(s: &mut S, words: Words, at: usize, b: u8)
    requires { S.knows words.tape.now words.work.now words.m × (at + words.width.bytes ≤ length words.work.now) }
    ensures { Taken S.more s.old (name_text b (word_at words.entry.width.bytes (texts words.entry.tape.now words.entry.work.now words.entry.m) words.entry.work.now at)) s.new }
{
    label(s, b);
    s.text(words, at);
    s.byte(b':');
}

// What stands before the symbols straight inside that of the code c at a place.
pub fn before<S: Sink>(s: &mut S, words: Words, at: usize, c: u8)
    requires { S.knows words.tape.now words.work.now words.m × (32 ≤ c) × (at + long_of words.width.bytes c ≤ length words.work.now) }
    ensures { Taken S.more s.old (before_by words.entry.width.bytes (texts words.entry.tape.now words.entry.work.now words.entry.m) words.entry.work.now at c) s.new }
{
    match c {
        0..=36 => leaf(s, words, at + 9, c),
        37 => {
            s.text(words, at + 9);
            s.byte(b'<');
        }
        38 => {}
        39 => s.byte(b'<'),
        40 => name(s, words, at + 10, words.work[at + 9]),
        41 => s.byte(b'('),
        _ => mark(s, c),
    }
}

// What stands behind them. `width` for the clauses alone.
pub fn behind<S: Sink>(s: &mut S, work: &[u8], width: usize, at: usize, c: u8)
    requires { (at + long_of width c ≤ length work.now) }
    ensures { Taken S.more s.old (behind_by work.now at c) s.new }
{
    match c {
        37 => s.byte(b'>'),
        38 => s.byte(op_byte(work[at + 9])),
        39 => s.byte(b'>'),
        41 => s.byte(b')'),
        _ => {}
    }
}

// What stands before the k-th of them.
pub fn between<S: Sink>(s: &mut S, c: u8, k: usize)
    ensures { Taken S.more s.old (between_by c k) s.new }
{
    if k != 0 {
        if c == 37 {
            s.run(b", ");
        } else {
            s.byte(b' ');
        }
    }
}

// The printed form of the symbol at a place: the place behind it. `left` levels of nesting are left.
#[cycle(print_symbol_print_list)]
pub fn print_symbol<S: Sink>(s: &mut S, words: Words, left: usize, at: usize) -> usize
    requires { S.knows words.tape.now words.work.now words.m × SomeSym words.tape.now words.work.now words.m words.width.bytes left at }
    ensures { PrintsSymbol S.more words.entry.tape.now words.entry.work.now words.entry.m words.entry.width.bytes left at s.old result s.new }
{
    let c = words.work[at];
    let e = at + long(c, words.width);
    let n = inside(words.work, words.width, at, c);
    before(s, words, at, c);
    let q = print_list(s, words, left - 1, e, n, c);
    behind(s, words.work, words.width.bytes, at, c);
    q
}

// Those of n symbols that stand at a place, with between them what stands between those straight inside a command of the code c.
#[cycle(print_symbol_print_list)]
fn print_list<S: Sink>(s: &mut S, words: Words, left: usize, at: usize, n: usize, c: u8) -> usize
    requires { S.knows words.tape.now words.work.now words.m × SomeSyms words.tape.now words.work.now words.m words.width.bytes n left at }
    ensures { PrintsList S.more words.entry.tape.now words.entry.work.now words.entry.m words.entry.width.bytes n left at c s.old result s.new }
{
    let mut p = at;
    for k in 0..n {
        between(s, c, k);
        p = print_symbol(s, words, left, p);
    }
    p
}

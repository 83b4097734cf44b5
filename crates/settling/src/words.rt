// Parts of printed forms, written behind what is written so far: texts of the table, quoted or as they are, and what stands around them.
ghost use Rattle.std.specs.Prelude.{[], ◌∷◌, ◌++◌, ◌+◌, ◌≤◌, length};
ghost use Rattle.parse_tree.specs.Plain.Display.{escaped};
ghost use Rattle.texts.specs.Table.{texts};
ghost use Rattle.texts.specs.Texts.{Whole};
ghost use Rattle.grades.specs.Grading.{Worded};
ghost use Rattle.display.specs.Follow.{quoted_text, word_at, leaf_text, mark_text, label_text, name_text};
ghost use Rattle.precedence.specs.Write.{Puts};
ghost use Rattle.settling.specs.Put.{source_text, Fixed, Marked, PlacedText};

use crate::put::{copy_down, escape, put_slice};
use crate::{Page, Source};
use octets::numbers::{atom_at, u16_at};
use precedence::write::{put, put_byte};
use texts::fields::text_mark;
use texts::mark::{Stand, TextMark};
use texts::text::atom;

// Where the text of a mark stands.
pub fn mark_source<'a>(tape: &'a [u8], work: &[u8], x: TextMark) -> Source<'a>
    requires { Whole tape.now work.now x.number }
    ensures { Marked tape.now work.now x.number result }
{
    match x.stand(tape) {
        Stand::Tape(at) => Source::Tape(atom(tape, at)),
        Stand::Work(at) => {
            let n = usize::from(u16_at(work, at + 1));
            Source::Work(at + 3, at + 3 + n)
        }
    }
}

// Where the text stands whose number stands at a place.
pub fn word_source<'a>(page: Page<'a>, work: &[u8], at: usize) -> Source<'a>
    requires { Worded page.tape.now work.now page.m × (at + page.width.bytes ≤ length work.now) }
    ensures { PlacedText page.entry.tape.now work.now page.entry.m (word_at page.entry.width.bytes (texts page.entry.tape.now work.now page.entry.m) work.now at) result }
{
    let k = atom_at(work, at, page.width) as usize;
    if k < page.m.count {
        mark_source(page.tape, work, text_mark(work, page.m.base, k))
    } else {
        Source::Tape(&[])
    }
}

// A text.
pub fn put_text(work: &mut [u8], p: Source, lim: usize, to: usize) -> usize
    requires { (lim ≤ length work.old) × Fixed (length work.old) lim p }
    ensures { Puts work.old lim to (source_text work.old p.entry) result work.new }
{
    match p {
        Source::Tape(t) => put_slice(work, t, lim, to),
        Source::Work(a, e) => put(work, e - a, lim, to, move |w| copy_down(w, a, e, to)),
    }
}

// As it stands between quotes.
fn put_escaped(work: &mut [u8], p: Source, lim: usize, to: usize) -> usize
    requires { (lim ≤ length work.old) × (to ≤ lim + 1) × Fixed (length work.old) lim p }
    ensures { Puts work.old lim to (escaped (source_text work.old p.entry) []) result work.new }
{
    match p {
        Source::Tape(t) => escape(work, 0, t.len(), lim, to, |_, i| t[i]),
        Source::Work(a, e) => escape(work, a, e, lim, to, |w, i| w[i]),
    }
}

// With the quotes.
fn put_quoted(work: &mut [u8], p: Source, lim: usize, to: usize) -> usize
    requires { (lim ≤ length work.old) × Fixed (length work.old) lim p }
    ensures { Puts work.old lim to (quoted_text (source_text work.old p.entry)) result work.new }
{
    let q = put_byte(work, b'"', lim, to);
    let z = put_escaped(work, p, lim, q);
    put_byte(work, b'"', lim, z)
}

// As a regular expression.
fn put_regex(work: &mut [u8], p: Source, lim: usize, to: usize) -> usize
    requires { (lim ≤ length work.old) × Fixed (length work.old) lim p }
    ensures { Puts work.old lim to (114 ∷ 35 ∷ (quoted_text (source_text work.old p.entry) ++ (35 ∷ []))) result work.new }
{
    let q = put_slice(work, b"r#", lim, to);
    let z = put_quoted(work, p, lim, q);
    put_byte(work, b'#', lim, z)
}

// A leaf of the code c.
pub fn put_leaf(work: &mut [u8], p: Source, c: u8, lim: usize, to: usize) -> usize
    requires { (lim ≤ length work.old) × Fixed (length work.old) lim p }
    ensures { Puts work.old lim to (leaf_text c (source_text work.old p.entry)) result work.new }
{
    match c {
        34 => put_quoted(work, p, lim, to),
        35 => put_regex(work, p, lim, to),
        _ => put_text(work, p, lim, to),
    }
}

// `M<`.
pub fn put_open(work: &mut [u8], p: Source, lim: usize, to: usize) -> usize
    requires { (lim ≤ length work.old) × Fixed (length work.old) lim p }
    ensures { Puts work.old lim to (source_text work.old p.entry ++ (60 ∷ [])) result work.new }
{
    let q = put_text(work, p, lim, to);
    put_byte(work, b'<', lim, q)
}

// A leaf that has no text: `@L`, `@R`, `error`.
pub fn put_mark(work: &mut [u8], c: u8, lim: usize, to: usize) -> usize
    requires { lim ≤ length work.old }
    ensures { Puts work.old lim to (mark_text c) result work.new }
{
    match c {
        42 => put_slice(work, b"@L", lim, to),
        43 => put_slice(work, b"@R", lim, to),
        _ => put_slice(work, b"error", lim, to),
    }
}

// `mut `, if the byte b says so.
fn put_label(work: &mut [u8], b: u8, lim: usize, to: usize) -> usize
    requires { (lim ≤ length work.old) × (to ≤ lim + 1) }
    ensures { Puts work.old lim to (label_text b) result work.new }
{
    if b == 1 {
        put_slice(work, b"mut ", lim, to)
    } else {
        to
    }
}

// `x:` or `mut x:`.
pub fn put_name(work: &mut [u8], p: Source, b: u8, lim: usize, to: usize) -> usize
    requires { (lim ≤ length work.old) × (to ≤ lim + 1) × Fixed (length work.old) lim p }
    ensures { Puts work.old lim to (name_text b (source_text work.old p.entry)) result work.new }
{
    let y = put_label(work, b, lim, to);
    let q = put_text(work, p, lim, y);
    put_byte(work, b':', lim, q)
}

// The printed form of a pushed symbol: the texts of inner symbols are copied where they stand already, and only the others are walked through.
ghost use Rattle.texts.specs.Fields.{mark_at};
ghost use Rattle.texts.specs.Texts.{marked_text};
ghost use Rattle.precedence.specs.Write.{Puts};
ghost use Rattle.expander.specs.Ground.{printed_at, Grounded};
ghost use Rattle.settling.specs.Copied.{TextStands, Said, Copying, SaidSymbol, SaidSymbols, KnownText, SaidAround, Behinds, PutsAll};

use crate::Page;
use crate::print::{print_symbol, put_before, put_behind, put_between};
use crate::words::{mark_source, put_text};
use expander::Ground;
use expander::meet::symbol_end;
use expander::replace::is_expanded;
use expander::slots::{Noted, reference};
use parse_tree::nested::inside;
use parse_tree::size::long;
use texts::fields::text_mark;

// What stays while a text is printed: the ground, the number from which on new texts are written, and the place before which to write.
#[derive(Clone, Copy)]
pub struct Print {
    pub g: Ground,
    pub first: usize,
    pub lim: usize,
}

// The number of the text of the symbol at p, which is expanded, if that stands already. `tape` for the clauses alone.
fn numbered(tape: &[u8], work: &[u8], x: &Print, p: usize) -> Option<usize>
    requires { Grounded tape.now work.now x.now.g × Said tape.now work.now x.now p }
    ensures { KnownText tape.now work.now x.now p result }
{
    match reference(work, &x.g, p) {
        Noted::Text(k) if k < x.g.m.count || x.first <= k => Some(k),
        _ => None,
    }
}

// The same of any symbol. `left` for the clauses alone.
fn known(tape: &[u8], work: &[u8], x: &Print, left: usize, p: usize) -> Option<usize>
    requires { Grounded tape.now work.now x.now.g × SaidSymbol tape.now work.now x.now left p }
    ensures { KnownText tape.now work.now x.now p result }
{
    if is_expanded(work[x.g.from + p]) {
        numbered(tape, work, x, p)
    } else {
        None
    }
}

// Text k of the records.
fn put_known(tape: &[u8], work: &mut [u8], x: &Print, k: usize, to: usize) -> usize
    requires { Copying tape.now work.old x.now to × TextStands tape.now work.old x.now k }
    ensures { Puts work.old x.now.lim to (marked_text tape.now work.old (mark_at work.old x.now.g.m.base k)) result work.new }
{
    let p = mark_source(tape, work, text_mark(work, x.g.m.base, k));
    put_text(work, p, x.lim, to)
}

// The printed form of the symbol at p, walked through; if nothing stands inside, without a call for that.
fn put_walked(tape: &[u8], work: &mut [u8], x: &Print, left: usize, p: usize, to: usize) -> usize
    requires { Copying tape.now work.old x.now to × SaidSymbol tape.now work.old x.now left p }
    ensures { Puts work.old x.now.lim to (printed_at tape.now work.old x.now.g p) result work.new }
{
    let at = x.g.from + p;
    // A method of Print would be cited with its four equations, here and twice below.
    let page = Page {
        tape,
        m: x.g.m,
        width: x.g.width,
        lim: x.lim,
    };
    let c = work[at];
    if inside(work, x.g.width, at, c) == 0 {
        let q = put_before(page, work, at, c, to);
        put_behind(work, x.g.width.bytes, at, c, x.lim, q)
    } else {
        print_symbol(page, work, left, at, to).to
    }
}

// Copied if it stands already.
fn put_one(tape: &[u8], work: &mut [u8], x: &Print, left: usize, p: usize, to: usize) -> usize
    requires { Copying tape.now work.old x.now to × SaidSymbol tape.now work.old x.now left p }
    ensures { Puts work.old x.now.lim to (printed_at tape.now work.old x.now.g p) result work.new }
{
    match known(tape, work, x, left, p) {
        Some(k) => put_known(tape, work, x, k, to),
        None => put_walked(tape, work, x, left, p, to),
    }
}

// The printed form of the choose or name at p, of the code c: it has no text itself, but its inner symbol may have one.
fn put_around(
    tape: &[u8],
    work: &mut [u8],
    x: &Print,
    left: usize,
    p: usize,
    c: u8,
    to: usize,
) -> usize
    requires { Copying tape.now work.old x.now to × SaidAround tape.now work.old x.now left p c }
    ensures { Puts work.old x.now.lim to (printed_at tape.now work.old x.now.g p) result work.new }
{
    let at = x.g.from + p;
    let page = Page {
        tape,
        m: x.g.m,
        width: x.g.width,
        lim: x.lim,
    };
    let e = p + long(c, x.g.width);
    let q = put_before(page, work, at, c, to);
    let z = put_one(tape, work, x, left - 1, e, q);
    put_behind(work, x.g.width.bytes, at, c, x.lim, z)
}

// The printed form of any symbol at p: its own text is copied if that stands, or else the inner one's, of a choose or a name.
fn put_part(tape: &[u8], work: &mut [u8], x: &Print, left: usize, p: usize, to: usize) -> usize
    requires { Copying tape.now work.old x.now to × SaidSymbol tape.now work.old x.now left p }
    ensures { Puts work.old x.now.lim to (printed_at tape.now work.old x.now.g p) result work.new }
{
    let c = work[x.g.from + p];
    if matches!(c, 39..=40) {
        put_around(tape, work, x, left, p, c, to)
    } else {
        put_one(tape, work, x, left, p, to)
    }
}

// The place behind the symbol at p, if more than one is to come, else p. `tape` and `left` for the clauses alone.
fn behind(tape: &[u8], work: &[u8], x: &Print, left: usize, p: usize, k: usize) -> usize
    requires { SaidSymbol tape.now work.now x.now left p }
    ensures { Behinds tape.now work.now x.now left p k result }
{
    if k < 2 {
        return p;
    }
    symbol_end(work, x.g.width, x.g.from + p) - x.g.from
}

// Of n symbols that stand at p, straight inside a command of the code c.
fn put_parts(
    tape: &[u8],
    work: &mut [u8],
    x: &Print,
    left: usize,
    p: usize,
    n: usize,
    c: u8,
    to: usize,
) -> usize
    requires { Copying tape.now work.old x.now to × SaidSymbols tape.now work.old x.now n left p }
    ensures { PutsAll tape.now work.old x.now n left p c to result work.new }
{
    let mut a = p;
    let mut q = to;
    for i in 0..n {
        let z = put_between(work, c, i, x.lim, q);
        q = put_part(tape, work, x, left, a, z);
        a = behind(tape, work, x, left, a, n - i);
    }
    q
}

// Of the pushed symbol at p, whose own text doesn't stand yet.
pub fn put_symbol(
    tape: &[u8],
    work: &mut [u8],
    x: &Print,
    left: usize,
    p: usize,
    to: usize,
) -> usize
    requires { Copying tape.now work.old x.now to × SaidSymbol tape.now work.old x.now left p }
    ensures { Puts work.old x.now.lim to (printed_at tape.now work.old x.now.g p) result work.new }
{
    let at = x.g.from + p;
    let page = Page {
        tape,
        m: x.g.m,
        width: x.g.width,
        lim: x.lim,
    };
    let c = work[at];
    let e = p + long(c, x.g.width);
    let n = inside(work, x.g.width, at, c);
    let q = put_before(page, work, at, c, to);
    let z = put_parts(tape, work, x, left - 1, e, n, c, q);
    put_behind(work, x.g.width.bytes, at, c, x.lim, z)
}

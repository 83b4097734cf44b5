// The printed form of a symbol that stands in work, written to another place of it: what stands before the symbols straight inside, these with separators between them, and what stands behind.
ghost use Rattle.std.specs.Prelude.{◌+◌, ◌≤◌, length, get_or};
ghost use Rattle.texts.specs.Table.{texts};
ghost use Rattle.parse_tree.specs.Working.Nodes.{long_of};
ghost use Rattle.display.specs.Follow.{word_at, name_text, before_by, behind_by, between_by};
ghost use Rattle.precedence.specs.Write.{Puts};
ghost use Rattle.settling.specs.Print.{Printable, Closing, Opening, OpensPrint, OneBelow, SomeBelow, PrintsList, PrintsSymbol};

use crate::put::put_slice;
use crate::words::{put_leaf, put_mark, put_name, put_open, word_source};
use crate::{Page, Printed};
use display::follow::op_byte;
use parse_tree::nested::inside;
use parse_tree::size::long;
use precedence::write::put_byte;

// What is read of a symbol's command: its code, where the symbols straight inside stand, and how many; and where to write on.
#[derive(Clone, Copy)]
pub struct Opened {
    pub code: u8,
    pub at: usize,
    pub inside: usize,
    pub to: usize,
}

// What stands before the k-th of the symbols straight inside that of the code c.
// Not by display's `between`: a sink over `&mut work` and its cursor would be longer than these two branches, and of use here alone.
pub fn put_between(work: &mut [u8], c: u8, k: usize, lim: usize, to: usize) -> usize
    requires { (lim ≤ length work.old) × (to ≤ lim + 1) }
    ensures { Puts work.old lim to (between_by c k) result work.new }
{
    if k == 0 {
        to
    } else if c == 37 {
        put_slice(work, b", ", lim, to)
    } else {
        put_byte(work, b' ', lim, to)
    }
}

// The name of the named symbol at a place.
fn put_named(page: Page, work: &mut [u8], at: usize, to: usize) -> usize
    requires { Printable page.tape.now work.old page.m page.width.bytes page.lim to × (at + 10 + page.width.bytes ≤ length work.old) }
    ensures { Puts work.old page.entry.lim to (name_text (get_or work.old (at + 9) 0) (word_at page.entry.width.bytes (texts page.entry.tape.now work.old page.entry.m) work.old (at + 10))) result work.new }
{
    let p = word_source(page, work, at + 10);
    let b = work[at + 9];
    put_name(work, p, b, page.lim, to)
}

// What stands before all of them, the symbol being of the code c at a place.
// No `Sink` of crate display, since a part of work can't be lent beside work: its `before` and `behind` read a command and texts beside the sink, and here these stand in the work that the sink
// would hold.
pub fn put_before(page: Page, work: &mut [u8], at: usize, c: u8, to: usize) -> usize
    requires { Printable page.tape.now work.old page.m page.width.bytes page.lim to × (32 ≤ c) × (at + long_of page.width.bytes c ≤ length work.old) }
    ensures { Puts work.old page.entry.lim to (before_by page.entry.width.bytes (texts page.entry.tape.now work.old page.entry.m) work.old at c) result work.new }
{
    match c {
        0..=36 => {
            let p = word_source(page, work, at + 9);
            put_leaf(work, p, c, page.lim, to)
        }
        37 => {
            let p = word_source(page, work, at + 9);
            put_open(work, p, page.lim, to)
        }
        38 => to,
        39 => put_byte(work, b'<', page.lim, to),
        40 => put_named(page, work, at, to),
        41 => put_byte(work, b'(', page.lim, to),
        _ => put_mark(work, c, page.lim, to),
    }
}

// What stands behind them. The width is a number, of which the clause alone speaks: a `Width` would ask more.
pub fn put_behind(work: &mut [u8], width: usize, at: usize, c: u8, lim: usize, to: usize) -> usize
    requires { Closing work.old width at c lim to }
    ensures { Puts work.old lim to (behind_by work.old at c) result work.new }
{
    match c {
        37 | 39 => put_byte(work, b'>', lim, to),
        38 => {
            let b = op_byte(work[at + 9]);
            put_byte(work, b, lim, to)
        }
        41 => put_byte(work, b')', lim, to),
        _ => to,
    }
}

// What stands before the symbols straight inside the symbol at a place, and what it begins with.
fn open(page: Page, work: &mut [u8], at: usize, to: usize) -> Opened
    requires { Printable page.tape.now work.old page.m page.width.bytes page.lim to × Opening work.old page.width.bytes at }
    ensures { OpensPrint page.entry.tape.now work.old page.entry.m page.entry.width.bytes at page.entry.lim to result work.new }
{
    let o = work[at];
    let end = at + long(o, page.width);
    let n = inside(work, page.width, at, o);
    let q = put_before(page, work, at, o, to);
    Opened {
        code: o,
        at: end,
        inside: n,
        to: q,
    }
}

// The printed form of the symbol at a place, behind what is written so far. `left` levels of nesting are left.
#[cycle(print_symbol_print_list)]
pub fn print_symbol(page: Page, work: &mut [u8], left: usize, at: usize, to: usize) -> Printed
    requires { Printable page.tape.now work.old page.m page.width.bytes page.lim to × OneBelow page.tape.now work.old page.m page.width.bytes left at to }
    ensures { PrintsSymbol page.entry.tape.now work.old page.entry.m page.entry.width.bytes left at page.entry.lim to result work.new }
{
    let f = open(page, work, at, to);
    let z = print_list(page, work, left - 1, f.at, f.inside, f.code, f.to);
    let q = put_behind(work, page.width.bytes, at, f.code, page.lim, z.to);
    Printed { at: z.at, to: q }
}

// Those of n symbols that stand at a place, with between them what stands between those straight inside a command of the code c.
#[cycle(print_symbol_print_list)]
pub fn print_list(
    page: Page,
    work: &mut [u8],
    left: usize,
    at: usize,
    n: usize,
    c: u8,
    to: usize,
) -> Printed
    requires { Printable page.tape.now work.old page.m page.width.bytes page.lim to × SomeBelow page.tape.now work.old page.m page.width.bytes n left at to }
    ensures { PrintsList page.entry.tape.now work.old page.entry.m page.entry.width.bytes n left at c page.entry.lim to result work.new }
{
    let mut r = Printed { at, to };
    for k in 0..n {
        let q = put_between(work, c, k, page.lim, r.to);
        r = print_symbol(page, work, left, r.at, q);
    }
    r
}

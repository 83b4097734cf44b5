// A nonterminal's line: name, span, flags.
ghost use Rattle.std.specs.Prelude.{◌+◌, ◌≤◌, length};
ghost use Rattle.texts.specs.Table.{texts};
ghost use Rattle.display.specs.Follow.{word_at};
ghost use Rattle.precedence.specs.Write.{Puts};
ghost use Rattle.settling.specs.Print.{Printable};
ghost use Rattle.listing.specs.Tree.{flags_line, line_text};
ghost use Rattle.listing.specs.Walk.{PutsHead};

use crate::number::put_led;
use parse_tree::node::whole_nonterminal;
use parse_tree::syntax::Span;
use settling::Page;
use settling::put::put_slice;
use settling::words::{put_text, word_source};

fn put_flags(work: &mut [u8], f: u8, lim: usize, to: usize) -> usize
    requires { lim ≤ length work.old }
    ensures { Puts work.old lim to (flags_line f) result work.new }
{
    let t: &[u8] = match f {
        0 => b"\n",
        1 => b" inline\n",
        2 => b" pub\n",
        _ => b" pub inline\n",
    };
    put_slice(work, t, lim, to)
}

// What stands behind the name.
fn put_line(work: &mut [u8], span: Span, f: u8, lim: usize, to: usize) -> usize
    requires { lim ≤ length work.old }
    ensures { Puts work.old lim to (line_text span.0 span.1 f) result work.new }
{
    let a = put_led(work, b' ', span.0 as usize, lim, to);
    let b = put_led(work, b'-', span.1 as usize, lim, a);
    put_flags(work, f, lim, b)
}

// The text whose number stands at a place.
fn put_word(page: Page, work: &mut [u8], at: usize, to: usize) -> usize
    requires { Printable page.tape.now work.old page.m page.width.bytes page.lim to × (at + page.width.bytes ≤ length work.old) }
    ensures { Puts work.old page.entry.lim to (word_at page.entry.width.bytes (texts page.entry.tape.now work.old page.entry.m) work.old at) result work.new }
{
    let p = word_source(page, work, at);
    put_text(work, p, page.lim, to)
}

// The line of the nonterminal at a place.
pub fn put_head(page: Page, work: &mut [u8], at: usize, to: usize) -> usize
    requires { Printable page.tape.now work.old page.m page.width.bytes page.lim to × (at + 13 + page.width.bytes ≤ length work.old) }
    ensures { PutsHead page.entry.tape.now work.old page.entry.m page.entry.width.bytes at page.entry.lim to result work.new }
{
    let d = whole_nonterminal(work, at, page.width);
    let q = put_word(page, work, at + 9, to);
    put_line(work, d.span, d.flags, page.lim, q)
}

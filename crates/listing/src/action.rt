// An alternative's action.
ghost use Rattle.std.specs.Prelude.{[], ◌∷◌, ◌++◌, ◌+◌, ◌≤◌, length};
ghost use Rattle.texts.specs.Table.{texts};
ghost use Rattle.precedence.specs.Write.{Puts};
ghost use Rattle.settling.specs.Print.{Printable};
ghost use Rattle.display.specs.Follow.{word_at};
ghost use Rattle.listing.specs.Tree.{action_at};

use precedence::write::put_byte;
use settling::Page;
use settling::put::put_slice;
use settling::words::{put_text, word_source};

// An arrow, and the text whose number stands at a place. The text is found first: the arrow may be put over that number.
fn put_arrow(page: Page, work: &mut [u8], arrow: &[u8], at: usize, to: usize) -> usize
    requires { Printable page.tape.now work.old page.m page.width.bytes page.lim to × (at + page.width.bytes ≤ length work.old) }
    ensures { Puts work.old page.entry.lim to (arrow.now ++ word_at page.entry.width.bytes (texts page.entry.tape.now work.old page.entry.m) work.old at) result work.new }
{
    let p = word_source(page, work, at);
    let q = put_slice(work, arrow, page.lim, to);
    put_text(work, p, page.lim, q)
}

// That of the alternative at a place. Its kind is read by its place: a reader of the whole command would ask for one byte more.
fn put_action(page: Page, work: &mut [u8], at: usize, to: usize) -> usize
    requires { Printable page.tape.now work.old page.m page.width.bytes page.lim to × (at + 14 + page.width.bytes ≤ page.lim + 1) }
    ensures { Puts work.old page.entry.lim to (action_at page.entry.width.bytes (texts page.entry.tape.now work.old page.entry.m) work.old at) result work.new }
{
    match work[at + 11] {
        0 => to,
        1 => put_arrow(page, work, b" => ", at + 12, to),
        2 => put_arrow(page, work, b" =>? ", at + 12, to),
        3 => put_slice(work, b" => @L", page.lim, to),
        _ => put_slice(work, b" => @R", page.lim, to),
    }
}

// And the end of the line.
pub fn put_tail(page: Page, work: &mut [u8], at: usize, to: usize) -> usize
    requires { Printable page.tape.now work.old page.m page.width.bytes page.lim to × (at + 14 + page.width.bytes ≤ page.lim + 1) }
    ensures { Puts work.old page.entry.lim to (action_at page.entry.width.bytes (texts page.entry.tape.now work.old page.entry.m) work.old at ++ (10 ∷ [])) result work.new }
{
    let q = put_action(page, work, at, to);
    put_byte(work, b'\n', page.lim, q)
}

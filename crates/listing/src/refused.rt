// The line of a refusal.
ghost use Rattle.std.specs.Prelude.{◌≤◌, length};
ghost use Rattle.precedence.specs.Write.{Puts};
ghost use Rattle.listing.specs.Listing.{listed};
ghost use Rattle.listing.specs.Tree.{refused_word, refused_by, places_text};

use crate::number::put_led;
use parse_tree::refusal::Refusal;
use precedence::write::put_byte;
use settling::put::put_slice;

fn put_refused(work: &mut [u8], lim: usize, to: usize) -> usize
    requires { lim ≤ length work.old }
    ensures { Puts work.old lim to refused_word result work.new }
{
    put_slice(work, b"refused", lim, to)
}

// Both place numbers and the end of the line.
fn put_places(work: &mut [u8], from: usize, end: usize, lim: usize, to: usize) -> usize
    requires { lim ≤ length work.old }
    ensures { Puts work.old lim to (places_text from end) result work.new }
{
    let a = put_led(work, b' ', from, lim, to);
    let b = put_led(work, b' ', end, lim, a);
    put_byte(work, b'\n', lim, b)
}

pub fn list_refusal(work: &mut [u8], why: Refusal, lim: usize, to: usize) -> usize
    requires { lim ≤ length work.old }
    ensures { Puts work.old lim to (listed (refused_by why)) result work.new }
{
    let a = put_refused(work, lim, to);
    let b = put_led(work, b' ', why.number, lim, a);
    put_places(work, why.from, why.to, lim, b)
}

// Numbers in decimal, written behind what is written so far.
ghost use Rattle.std.specs.Prelude.{◌∷◌, ◌≤◌, length};
ghost use Rattle.passes.specs.Levels.{number_digits};
ghost use Rattle.precedence.specs.Write.{Puts};

use grades::decimal::{number_size, put_digits};
use precedence::write::{put, put_byte};

// A number, if it ends at lim or before.
fn put_number(work: &mut [u8], v: usize, lim: usize, to: usize) -> usize
    requires { lim ≤ length work.old }
    ensures { Puts work.old lim to (number_digits v) result work.new }
{
    put(work, number_size(v), lim, to, move |w| {
        put_digits(w, to, v);
    })
}

// A byte, and a number behind it.
pub fn put_led(work: &mut [u8], b: u8, v: usize, lim: usize, to: usize) -> usize
    requires { lim ≤ length work.old }
    ensures { Puts work.old lim to (b ∷ number_digits v) result work.new }
{
    let q = put_byte(work, b, lim, to);
    put_number(work, v, lim, q)
}

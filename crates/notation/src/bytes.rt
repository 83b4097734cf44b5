// Bytes as pairs of hexadecimal digits. What finds no room is not written, and the place is then one behind the end.
ghost use Rattle.std.specs.Prelude.{◌≤◌};

use crate::words::digit;
use octets::sink::put8;

// Bytes, as pairs of digits: the place behind what was written; None of a word that is no such pairs.
pub fn put_bytes(text: &[u8], tape: &mut [u8], to: usize) -> Option<usize> {
    let room = tape.len();
    let mut q = to;
    for pair in text.chunks(2) {
        let [high, low] = pair else {
            return None;
        };
        q = put8(tape, room, q, digit(*high)? * 16 + digit(*low)?);
    }
    Some(q)
}

fn digit_of(n: u8) -> u8
    requires { n ≤ 15 }
{
    if n < 10 { b'0' + n } else { b'A' + (n - 10) }
}

// A byte as two digits: the place behind them.
fn put_pair(out: &mut [u8], to: usize, b: u8) -> usize {
    let room = out.len();
    let q = put8(out, room, to, digit_of(b / 16));
    put8(out, room, q, digit_of(b % 16))
}

// The digits of the bytes of src, from a place of out on: the place behind them.
pub fn put_digits(src: &[u8], out: &mut [u8], to: usize) -> usize {
    let mut q = to;
    for b in src {
        q = put_pair(out, q, *b);
    }
    q
}

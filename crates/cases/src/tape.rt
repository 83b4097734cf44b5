// The tape of a case, word by word. What finds no room is not written, and the place is then one behind the end.
ghost use Rattle.std.specs.Prelude.{◌<◌};

use notation::bytes::put_bytes;
use notation::words::decimal;
use octets::sink::put8;

// Bytes, so many times.
fn put_repeated(text: &[u8], times: usize, tape: &mut [u8], to: usize) -> Option<usize> {
    let mut q = to;
    for _ in 0..times {
        q = put_bytes(text, tape, q)?;
    }
    Some(q)
}

// The letters in the order A to Z, a to z.
fn letter(k: usize) -> u8
    requires { k < 52 }
{
    if k < 26 {
        b'A' + k as u8
    } else {
        b'a' + (k - 26) as u8
    }
}

// An atom with the k-th text, which begins with a capital letter.
fn put_atom(k: usize, tape: &mut [u8], to: usize) -> usize
    requires { k < 70304 }
{
    let mut q = to;
    for b in [
        1,
        3,
        0,
        letter(k / 2704),
        letter(k / 52 % 52),
        letter(k % 52),
    ] {
        let room = tape.len();
        q = put8(tape, room, q, b);
    }
    q
}

// So many atoms, no two equal.
fn put_atoms(count: usize, tape: &mut [u8], to: usize) -> Option<usize> {
    if 70304 < count {
        return None;
    }
    let mut q = to;
    for k in 0..count {
        q = put_atom(k, tape, q);
    }
    Some(q)
}

// What a word that writes to the tape stands for.
pub fn put_word(word: &[u8], tape: &mut [u8], to: usize) -> Option<usize> {
    match word {
        [] => None,
        [b'a', count @ ..] => put_atoms(decimal(count)?, tape, to),
        _ => match word.iter().position(|b| *b == b'x') {
            Some(x) => put_repeated(&word[x + 1..], decimal(&word[..x])?, tape, to),
            None => put_bytes(word, tape, to),
        },
    }
}

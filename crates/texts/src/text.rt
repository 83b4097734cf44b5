// The text of a mark, as a part of the tape or of work; and a text written.
ghost use Rattle.std.specs.Prelude.{◌≡◌, [], ◌∷◌, ◌++◌, ◌+◌, ◌≤◌, ◌<◌, length, get_or};
ghost use Rattle.octets.specs.Plain.Numbers.{le};
ghost use Rattle.octets.specs.Working.Stores.{store};
ghost use Rattle.texts.specs.Atoms.{atom_end, atom_text};
ghost use Rattle.texts.specs.Texts.{marked_text, Whole};
ghost use Rattle.texts.specs.Table.{Table, texts};

use crate::Map;
use crate::fields::text_mark;
use crate::mark::{Stand, TextMark};
use octets::numbers::{store16, u16_at};
use octets::runs::copy;

// The text of the command 01 at a place.
pub fn atom(s: &[u8], at: usize) -> &[u8]
    requires { atom_end s.now at ≤ length s.now }
    ensures { result.now ≡ atom_text s.now at }
{
    let n = u16_at(s, at + 1) as usize;
    let a = at + 3;
    let e = a + n;
    &s[a..e]
}

// The text of a mark.
pub fn text_at<'a>(tape: &'a [u8], work: &'a [u8], x: TextMark) -> &'a [u8]
    requires { Whole tape.now work.now x.number }
    ensures { result.now ≡ marked_text tape.now work.now x.number }
{
    match x.stand(tape) {
        Stand::Tape(at) => atom(tape, at),
        Stand::Work(at) => atom(work, at),
    }
}

// The k-th text.
pub fn text<'a>(tape: &'a [u8], work: &'a [u8], m: Map, k: usize) -> &'a [u8]
    requires { Table tape.now work.now m × (k < m.count) }
    ensures { result.now ≡ get_or (texts tape.now work.now m) k [] }
{
    text_at(tape, work, text_mark(work, m.base, k))
}

// The command of an atom of n bytes, before its text.
pub fn put_atom_head(n: u16, out: &mut [u8], to: usize)
    requires { to + 3 ≤ length out.old }
    ensures { out.new ≡ store out.old to (1 ∷ le 2 n) }
{
    out[to] = 1;
    store16(out, to + 1, n);
}

// The same, and t behind it, which is its text or begins it.
pub fn put_atom(t: &[u8], n: u16, out: &mut [u8], to: usize)
    requires { to + 3 + length t.now ≤ length out.old }
    ensures { out.new ≡ store out.old to ((1 ∷ le 2 n) ++ t.now) }
{
    put_atom_head(n, out, to);
    copy(t, 0, t.len(), out, to + 3);
}

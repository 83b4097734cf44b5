// Hash, power and length of printed forms. They compose, so no printed form is ever made whole: one is handed on, and each piece makes it longer.
// Functions, since Form's methods are those of a sink, which change it.
ghost use Rattle.std.specs.Prelude.{◌≡◌, [], ◌∷◌, ◌+◌, ◌≤◌, length};
ghost use Rattle.texts.specs.Hash.{power};
ghost use Rattle.texts.specs.Forms.{stop};
ghost use Rattle.texts.specs.Table.{texts};
ghost use Rattle.display.specs.Follow.{word_at};
ghost use Rattle.display.specs.Form.{From, text_form, odd_times, whole_of, join_of, Hashed, more_of};

use crate::form::Form;
use crate::sink::Sink;
use grades::words::Words;
use octets::numbers::atom_at;
use texts::fields::hash;
use texts::hash::next;

// The form of no bytes.
pub fn none() -> Form
    ensures { result ≡ text_form [] }
{
    Form {
        hash: 0,
        power: 1,
        len: 0,
    }
}

// A byte more.
fn snoc(f: Form, b: u8) -> Form
    ensures { From f (b ∷ []) result }
{
    Form {
        hash: next(f.hash, b),
        power: f.power.wrapping_mul(2654435761),
        len: stopped(f.len + 1),
    }
}

// The bytes of t more.
fn snocs(f: Form, t: &[u8]) -> Form
    ensures { From f t.now result }
{
    let mut g = f;
    for b in t {
        g = snoc(g, *b);
    }
    g
}

// r by b, if k is odd.
fn odd_times(r: u32, b: u32, k: usize) -> u32
    ensures { result ≡ odd_times r b k }
{
    if k % 2 == 1 { r.wrapping_mul(b) } else { r }
}

// The power of the multiplier by a length, by squaring. Not by `wrapping_pow`, which takes a u32: that a text in `Words` is so short would have to be proved.
fn power_of(n: usize) -> u32
    ensures { result ≡ power n }
{
    let mut r: u32 = 1;
    let mut b: u32 = 2654435761;
    let mut k = n;
    while 0 < k {
        r = odd_times(r, b, k);
        b = b.wrapping_mul(b);
        k /= 2;
    }
    r
}

// A length, which stops at 65,536.
fn stopped(n: usize) -> usize
    ensures { (result ≡ stop n) × (result ≤ 65536) }
{
    n.min(65536)
}

// The form of a text of n bytes whose hash is h.
fn whole(h: u32, n: usize) -> Form
    ensures { result ≡ whole_of h n }
{
    Form {
        hash: h,
        power: power_of(n),
        len: stopped(n),
    }
}

// One form behind another.
pub fn join(x: Form, y: Form) -> Form
    ensures { result ≡ join_of x y }
{
    Form {
        hash: x.hash.wrapping_mul(y.power).wrapping_add(y.hash),
        power: x.power.wrapping_mul(y.power),
        len: stopped(x.len + y.len),
    }
}

// The text whose number stands at a place, more: its hash is read, not made.
fn named(words: Words, at: usize, f: Form) -> Form
    requires { Hashed words.tape.now words.work.now words.m × (at + words.width.bytes ≤ length words.work.now) }
    ensures { From f (word_at words.entry.width.bytes (texts words.entry.tape.now words.entry.work.now words.entry.m) words.entry.work.now at) result }
{
    let k = atom_at(words.work, at, words.width) as usize;
    if words.m.count <= k {
        return f;
    }
    let h = hash(words.work, words.m.base, k);
    join(f, whole(h, words.text(k).len()))
}

impl Sink for Form {
    ghost more = { more_of };

    ghost knows = { Hashed };

    fn byte(&mut self, b: u8) {
        *self = snoc(*self, b);
    }

    fn run(&mut self, x: &[u8]) {
        *self = snocs(*self, x);
    }

    fn text(&mut self, words: Words, at: usize) {
        *self = named(words, at, *self);
    }
}

// The printed form of a symbol that stands in work, of any length: a window of it is written, and two forms are compared window by window.
ghost use Rattle.std.specs.Prelude.{◌≡◌, length};
ghost use Rattle.display.specs.Standing.{SomeSym};
ghost use Rattle.display.specs.Window.{Fills, judged, Looks, SamePrints};

use crate::emit::{Spot, Window};
use crate::shape::same_shape;
use crate::sink::print_symbol;
use grades::words::Words;

// What a window says of two forms: they end in it and are the same, they differ, or both go on and were the same so far.
#[derive(Clone, Copy)]
pub enum Verdict {
    Same,
    Differ,
    More,
}

// The window of the printed form of the symbol at a place that starts `skip` bytes into it.
fn fill(words: Words, left: usize, a: usize, skip: u128, x: &mut Window) -> usize
    requires { SomeSym words.tape.now words.work.now words.m words.width.bytes left a }
    ensures { Fills words.entry.tape.now words.entry.work.now words.entry.m words.entry.width.bytes left a skip x.old.bytes result x.new.bytes }
{
    x.spot = Spot { skip, to: 0 };
    print_symbol(x, words, left, a);
    x.spot.to
}

// What two windows of one length say, of which one was written up to i and the other up to j: a cursor behind the window's end says that the form goes on.
fn judge(x: &[u8], y: &[u8], i: usize, j: usize) -> Verdict
    requires { length x.now ≡ length y.now }
    ensures { result ≡ judged x.now y.now i j }
{
    if i != j {
        return Verdict::Differ;
    }
    if i <= x.len() {
        if x[..i] == y[..i] {
            Verdict::Same
        } else {
            Verdict::Differ
        }
    } else if x == y {
        Verdict::More
    } else {
        Verdict::Differ
    }
}

// What the windows that start `skip` bytes into them say of two forms.
fn look(
    words: Words,
    left: usize,
    a: usize,
    b: usize,
    skip: u128,
    x: &mut Window,
    y: &mut Window,
) -> Verdict
    requires { SomeSym words.tape.now words.work.now words.m words.width.bytes left a × SomeSym words.tape.now words.work.now words.m words.width.bytes left b }
    ensures { Looks words.entry.tape.now words.entry.work.now words.entry.m words.entry.width.bytes left a b skip 256 result }
{
    let i = fill(words, left, a, skip, x);
    let j = fill(words, left, b, skip, y);
    judge(&x.bytes, &y.bytes, i, j)
}

// Whether two forms are the same, with two windows of one length.
fn same_in(words: Words, left: usize, a: usize, b: usize, x: &mut Window, y: &mut Window) -> bool
    requires { SomeSym words.tape.now words.work.now words.m words.width.bytes left a × SomeSym words.tape.now words.work.now words.m words.width.bytes left b }
    ensures { SamePrints words.entry.tape.now words.entry.work.now words.entry.m words.entry.width.bytes left a b result }
{
    let mut skip = 0;
    loop {
        match look(words, left, a, b, skip, x, y) {
            Verdict::Same => return true,
            Verdict::Differ => return false,
            Verdict::More => skip += x.bytes.len() as u128,
        }
    }
}

// Whether the symbols at two places have the same printed form. Mostly they have the same commands, which is seen sooner.
pub fn same_print(words: Words, left: usize, a: usize, b: usize) -> bool
    requires { SomeSym words.tape.now words.work.now words.m words.width.bytes left a × SomeSym words.tape.now words.work.now words.m words.width.bytes left b }
    ensures { SamePrints words.entry.tape.now words.entry.work.now words.entry.m words.entry.width.bytes left a b result }
{
    if same_shape(words.work, words.width, a, b) {
        return true;
    }
    let mut x = Window {
        bytes: [0; 256],
        spot: Spot { skip: 0, to: 0 },
    };
    let mut y = x;
    same_in(words, left, a, b, &mut x, &mut y)
}

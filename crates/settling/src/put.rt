// Bytes written behind what is written so far. What does not fit before lim is not written, and the cursor stops at lim + 1.
ghost use Rattle.std.specs.Prelude.{◌≡◌, List, ℕ, [], ◌∷◌, ◌+◌, ◌≤◌, length};
ghost use Rattle.octets.specs.Plain.Runs.{part};
ghost use Rattle.octets.specs.Working.Stores.{store};
ghost use Rattle.parse_tree.specs.Plain.Display.{escaped};
ghost use Rattle.precedence.specs.Write.{Puts};
ghost use Rattle.settling.specs.Escape.{Tellable, Tells};

use octets::runs::copy;
use precedence::write::{put, put_byte};

// The bytes from a up to e, to a place before them. A loop, as octets' `copy` and for its reason.
pub fn copy_down(work: &mut [u8], a: usize, e: usize, to: usize)
    requires { (to ≤ a) × (a ≤ e) × (e ≤ length work.old) }
    ensures { work.new ≡ store work.old to (part a e work.old) }
{
    for i in 0..e - a {
        work[to + i] = work[a + i];
    }
}

// All of another slice, such as a text of the code's own.
pub fn put_slice(work: &mut [u8], t: &[u8], lim: usize, to: usize) -> usize
    requires { lim ≤ length work.old }
    ensures { Puts work.old lim to t.now result work.new }
{
    put(work, t.len(), lim, to, move |w| {
        copy(t, 0, t.len(), w, to);
    })
}

// A byte as it stands between quotes.
fn put_inside(work: &mut [u8], b: u8, lim: usize, to: usize) -> usize
    requires { lim ≤ length work.old }
    ensures { Puts work.old lim to (escaped (b ∷ []) []) result work.new }
{
    match b {
        b'"' | b'\\' => {
            let q = put_byte(work, b'\\', lim, to);
            put_byte(work, b, lim, q)
        }
        _ => put_byte(work, b, lim, to),
    }
}

// The bytes that `byte` tells at a up to e, as they stand between quotes: those of whatever list s it tells. What it reads of work stands at lim or behind.
pub fn escape<F: Fn(&[u8], usize) -> u8>(
    work: &mut [u8],
    a: usize,
    e: usize,
    lim: usize,
    to: usize,
    byte: F,
) -> usize
    requires inside { (lim ≤ length work.old) × (to ≤ lim + 1) × (a ≤ e) }
    requires reads { Tellable (λ x. x.now) lim work.old a e (F.pre byte) }
    ensures { (s : List ℕ) → e ≤ length s → Tells (λ x. x.now) lim work.old a e (F.post byte) s → Puts work.old lim to (escaped (part a e s) []) result work.new }
{
    let mut q = to;
    for i in a..e {
        let b = byte(work, i);
        q = put_inside(work, b, lim, q);
    }
    q
}

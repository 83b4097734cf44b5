// A new text as an atom that ends at a place of work: the command, the length, and the printed form of a symbol.
ghost use Rattle.std.specs.Prelude.{◌≡◌, ◌∷◌, ◌+◌, ◌-◌, ◌≤◌, length};
ghost use Rattle.octets.specs.Plain.Numbers.{le};
ghost use Rattle.octets.specs.Working.Stores.{store};
ghost use Rattle.parse_tree.specs.Working.Encode.{atom_bytes};
ghost use Rattle.precedence.specs.Write.{Puts};
ghost use Rattle.expander.specs.Ground.{printed_at};
ghost use Rattle.settling.specs.Atom.{AtomReady};

use crate::copied::{Print, put_symbol};
use precedence::write::put;

// The command of a text of so many bytes.
fn put_head(work: &mut [u8], len: u16, lim: usize, to: usize) -> usize
    requires { lim ≤ length work.old }
    ensures { Puts work.old lim to (1 ∷ le 2 len) result work.new }
{
    put(work, 3, lim, to, move |w| {
        texts::text::put_atom_head(len, w, to);
    })
}

// The printed form of the pushed symbol at p, which has len bytes, as an atom that ends at x.lim.
pub fn put_atom_text(tape: &[u8], work: &mut [u8], x: &Print, p: usize, len: usize)
    requires { AtomReady tape.now work.old x.now p len }
    ensures { work.new ≡ store work.old (x.now.lim - (len + 3)) (atom_bytes 2 (printed_at tape.now work.old x.now.g p)) }
{
    let to = x.lim - (len + 3);
    let q = put_head(work, len as u16, x.lim, to);
    put_symbol(tape, work, x, 64, p, q);
}

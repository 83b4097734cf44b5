// The nine built-in texts: their lengths, and each as an atom that ends at a place.
ghost use Rattle.std.specs.Prelude.{◌≡◌, ◌+◌, ◌≤◌, ◌<◌, length};
ghost use Rattle.appending.specs.Built.{built_text};
ghost use Rattle.settling.specs.One.{TextPut};

use appending::built::{bytes, of_number};
use texts::hash::hash;
use texts::text::put_atom;

// How many bytes the k-th has. `NewText::BuiltIn` holds its number, not the enum, which is appending's, above where the entry is read.
pub fn built_length(k: usize) -> usize
    requires { k < 9 }
    ensures { result ≡ length (built_text k) }
{
    bytes(of_number(k)).len()
}

// A text as an atom that ends at `end`; says its hash.
fn put_bytes(work: &mut [u8], t: &[u8], end: usize) -> u32
    requires { (length t.now < 65536) × (length t.now + 3 ≤ end) × (end ≤ length work.old) }
    ensures { TextPut work.old t.now end result work.new }
{
    let to = end - (t.len() + 3);
    put_atom(t, t.len() as u16, work, to);
    hash(t)
}

// The k-th as such an atom.
pub fn put_built(work: &mut [u8], k: usize, end: usize) -> u32
    requires { (k < 9) × (34 ≤ end) × (end ≤ length work.old) }
    ensures { TextPut work.old (built_text k) end result work.new }
{
    put_bytes(work, bytes(of_number(k)), end)
}

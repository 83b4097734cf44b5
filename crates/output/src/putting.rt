// Texts of a table, put to the output as atoms.
ghost use Rattle.std.specs.Prelude.{◌+◌, ◌≤◌, ◌<◌, length, drop};
ghost use Rattle.parse_tree.specs.Plain.WriteTape.{bytes_of_each};
ghost use Rattle.parse_tree.specs.Working.Encode.{atom_bytes};
ghost use Rattle.texts.specs.Table.{Table, texts};
ghost use Rattle.levels.specs.Fresh.{PutsNames};
ghost use Rattle.output.specs.Working.Putting.{numbered_text, TextsFit};

use texts::Map;
use texts::text::{put_atom, text};

// Text k of the table as an atom, to out from `to` on; says the place behind.
fn put_text(tape: &[u8], work: &[u8], m: Map, k: usize, out: &mut [u8], to: usize) -> usize
    requires { Table tape.now work.now m × (k < m.count) × (length (numbered_text tape.now work.now m k) < 65536) × (to + 3 + length (numbered_text tape.now work.now m k) ≤ length out.old) }
    ensures { PutsNames out.old to (atom_bytes 2 (numbered_text tape.now work.now m k)) result out.new }
{
    let t = text(tape, work, m, k);
    put_atom(t, t.len() as u16, out, to);
    to + 3 + t.len()
}

// The texts from the n-th on, by number.
pub fn put_texts(tape: &[u8], work: &[u8], m: Map, n: usize, out: &mut [u8], to: usize) -> usize
    requires { TextsFit tape.now work.now m n (length out.old) to }
    ensures { PutsNames out.old to (bytes_of_each (atom_bytes 2) (drop n (texts tape.now work.now m))) result out.new }
{
    let mut q = to;
    for k in n..m.count {
        q = put_text(tape, work, m, k, out, q);
    }
    q
}

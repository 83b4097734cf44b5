// The names of levels, which have no bytes yet: their bytes counted, and written to the output.
// tape, work, m and n stay parameters: of one value (as Words is) the clauses are longer, `names.entry.work.now` for `work.now` in each, and only `Naming` goes.
// In `name_length` and `put_name` n is for the clauses alone.
ghost use Rattle.std.specs.Prelude.{◌≡◌, ◌++◌, ◌+◌, ◌≤◌, ◌<◌, length, false};
ghost use Rattle.parse_tree.specs.Plain.WriteTape.{bytes_of_each};
ghost use Rattle.parse_tree.specs.Working.Encode.{atom_bytes};
ghost use Rattle.grades.specs.Grade.{level_digits};
ghost use Rattle.precedence.specs.Names.{Naming, named_text};
ghost use Rattle.texts.specs.Atoms.{some_long};
ghost use Rattle.levels.specs.Fresh.{new_texts, fresh_of, NameLong, PutsNames};

use grades::grade::put_decimal;
use precedence::names::{base_text, name_mark, spelt_size};
use texts::Map;
use texts::text::put_atom;

// How long name k is, of those described up to n.
fn name_length<'a>(tape: &'a [u8], work: &'a [u8], m: Map, n: usize, k: usize) -> usize
    requires { Naming tape.now work.now m n × (m.count ≤ k) × (k < n) }
    ensures { NameLong tape.now work.now m k result }
{
    let x = name_mark(work, m.base, k);
    let t = base_text(tape, work, m, x.base());
    spelt_size(t, Some(x.level()))
}

// How many bytes all names described up to n have with their commands; as an error where one of them is too long for a text.
pub fn count_bytes<'a>(tape: &'a [u8], work: &'a [u8], m: Map, n: usize) -> Result<usize, usize>
    requires { Naming tape.now work.now m n }
    ensures { result ≡ fresh_of (new_texts tape.now work.now m n) }
{
    let mut bytes = 0;
    let mut too_long = false;
    for k in m.count..n {
        let l = name_length(tape, work, m, n, k);
        bytes += 3 + l;
        if 65535 < l {
            too_long = true;
        }
    }
    if too_long { Err(bytes) } else { Ok(bytes) }
}

// A text and a level's digits behind it as an atom, to out from `to` on; says the place behind.
pub fn put_level(t: &[u8], v: u32, out: &mut [u8], to: usize) -> usize
    requires { (length t.now + length (level_digits v) < 65536) × (to + 3 + (length t.now + length (level_digits v)) ≤ length out.old) }
    ensures { PutsNames out.old to (atom_bytes 2 (t.now ++ level_digits v)) result out.new }
{
    put_atom(t, spelt_size(t, Some(v)) as u16, out, to);
    put_decimal(out, to + 3 + t.len(), v)
}

// Name k as an atom, to out from `to` on; says the place behind.
fn put_name<'a>(
    tape: &'a [u8],
    work: &'a [u8],
    m: Map,
    n: usize,
    k: usize,
    out: &mut [u8],
    to: usize,
) -> usize
    requires { Naming tape.now work.now m n × (m.count ≤ k) × (k < n) × (length (named_text tape.now work.now m k) < 65536) × (to + 3 + length (named_text tape.now work.now m k) ≤ length out.old) }
    ensures { PutsNames out.old to (atom_bytes 2 (named_text tape.now work.now m k)) result out.new }
{
    let x = name_mark(work, m.base, k);
    let t = base_text(tape, work, m, x.base());
    put_level(t, x.level(), out, to)
}

// All names described up to n, by number.
pub fn put_names<'a>(
    tape: &'a [u8],
    work: &'a [u8],
    m: Map,
    n: usize,
    out: &mut [u8],
    to: usize,
) -> usize
    requires { Naming tape.now work.now m n × (some_long (new_texts tape.now work.now m n) ≡ false) × (to + length (bytes_of_each (atom_bytes 2) (new_texts tape.now work.now m n)) ≤ length out.old) }
    ensures { PutsNames out.old to (bytes_of_each (atom_bytes 2) (new_texts tape.now work.now m n)) result out.new }
{
    let mut q = to;
    for k in m.count..n {
        q = put_name(tape, work, m, n, k, out, q);
    }
    q
}

// The names of levels, once their stage is admitted: written to work as atoms, and their records told where they stand.
ghost use Rattle.precedence.specs.Names.{named_text};
ghost use Rattle.levels.specs.Settle.{NameReady, NamePut, NameSettled, SettlingNames, SettledNames};

use crate::fresh::put_level;
use precedence::names::{name_mark, spelt_size};
use texts::Map;
use texts::fields::{put_mark, text_mark};
use texts::mark::TextMark;
use texts::text::atom;

// Name k as an atom that ends at q; says where it begins. The text that it begins with stands on the tape.
fn put_before(tape: &[u8], work: &mut [u8], m: Map, k: usize, q: usize) -> usize
    requires { NameReady tape.now work.old m k q }
    ensures { NamePut work.old (named_text tape.now work.old m k) q result work.new }
{
    let x = name_mark(work, m.base, k);
    let y = text_mark(work, m.base, x.base());
    let t = atom(tape, y.tape_place());
    let v = x.level();
    let to = q - (spelt_size(t, Some(v)) + 3);
    put_level(t, v, work, to);
    to
}

// Name k so, and its record's mark; hash, link and head are right already.
fn settle_name(tape: &[u8], work: &mut [u8], m: Map, k: usize, q: usize) -> usize
    requires { NameReady tape.now work.old m k q }
    ensures { NameSettled tape.now work.old m k (named_text tape.now work.old m k) q result work.new }
{
    let to = put_before(tape, work, m, k, q);
    let x = TextMark::in_work(tape, to);
    put_mark(work, m.base, k, x.number);
    to
}

// The names described up to n as atoms that end at `end`, by number; says where the first begins.
pub fn settle_names(tape: &[u8], work: &mut [u8], m: Map, n: usize, end: usize) -> usize
    requires { SettlingNames tape.now work.old m n end }
    ensures { SettledNames tape.now work.old m n end result work.new }
{
    let mut q = end;
    for k in (m.count..n).rev() {
        q = settle_name(tape, work, m, k, q);
    }
    q
}

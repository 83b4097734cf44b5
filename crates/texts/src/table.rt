// The table: a text by its bytes, and a text more. What writes has `tape` for the clauses alone.
ghost use Rattle.std.specs.Prelude.{◌≡◌, ◌+◌, ◌*◌, ◌≤◌, ◌<◌, length};
ghost use Rattle.texts.specs.Hash.{hash_of};
ghost use Rattle.texts.specs.Table.{Table, texts, Finds, Entering, Entered, Started, Spreading, Spread, Growing, Grown};

use crate::Map;
use crate::chain::{LINKED, empty, put_record, relink, search};
use crate::mark::TextMark;
use crate::text::text;

// The number of a text by its bytes and their hash.
pub fn find<'a>(tape: &'a [u8], work: &'a [u8], m: Map, t: &[u8], h: u32) -> Option<usize>
    requires { Table tape.now work.now m × (0 < m.buckets) × (h ≡ hash_of t.now) }
    ensures { Finds (texts tape.now work.now m) t.now result }
{
    search(work, m, h, |i| text(tape, work, m, i) == t)
}

// The text of a mark, with its hash and its cell, as the next one.
pub fn enter(tape: &[u8], work: &mut [u8], m: Map, x: TextMark, h: u32, c: u32) -> Map
    requires { Entering tape.now work.old m x.number h }
    ensures { Entered tape.now work.old m x.number c result work.new }
{
    put_record(work, m, x.number, h, c);
    Map {
        count: m.count + 1,
        ..m
    }
}

// No texts yet, with a bucket for each of n to come.
pub fn start(tape: &[u8], work: &mut [u8], base: usize, n: usize) -> Map
    requires { base + 24 * n ≤ length work.old }
    ensures { Started tape.now work.old base n result work.new }
{
    let m = Map {
        base,
        count: 0,
        buckets: n.min(LINKED),
    };
    empty(work, m);
    m
}

// The same texts with a bucket for each.
pub fn spread(tape: &[u8], work: &mut [u8], m: Map) -> Map
    requires { Spreading tape.now work.old m }
    ensures { Spread tape.now work.old m result work.new }
{
    let buckets = m.count.min(LINKED);
    let none = Map {
        count: 0,
        buckets,
        ..m
    };
    empty(work, none);
    relink(work, none, buckets);
    Map { buckets, ..m }
}

// The records up to n, which are written, as texts.
pub fn grow(tape: &[u8], work: &mut [u8], m: Map, n: usize) -> Map
    requires { Growing tape.now work.old m n }
    ensures { Grown tape.now work.old m n result work.new }
{
    let k = m.count.min(LINKED);
    relink(work, Map { count: k, ..m }, n.min(LINKED));
    Map { count: n, ..m }
}

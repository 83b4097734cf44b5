// All alternatives of an annotated nonterminal graded: their places and keys go to two arrays in work.
ghost use Rattle.std.specs.Prelude.{◌≡◌, true, ◌+◌, ◌*◌, ◌≤◌, ◌<◌, length};
ghost use Rattle.grades.specs.declared.Assoc.{Assoc};
ghost use Rattle.texts.specs.Table.{texts};
ghost use Rattle.grades.specs.Alternatives.{next_grade, stored_grade, Gradable, grade_from, Grades, still_ascends, place_of_key, lowest_from};

use crate::annotations::{alternative_end, symbols};
use crate::grading::graded;
use crate::key::Key;
use crate::sort::same_level;
use crate::words::Words;
use crate::{Assoc, Graded, Ids, Ungraded};
use octets::numbers::{Width, store64, u64_at};
use texts::Map;

// Level and side of the alternative at a place; `before` has those of the one before it. The question is None where no alternative stands there before e.
fn next_grade<'a>(
    t: Words<'a>,
    at: usize,
    e: usize,
    ids: Ids,
    before: Graded,
) -> Result<Graded, Ungraded>
    requires { e + 16 ≤ length t.work.now }
    ensures { result ≡ next_grade t.entry.width.bytes ids (texts t.entry.tape.now t.entry.work.now t.entry.m) t.entry.work.now at e before.level before.side }
{
    if e <= at || e < symbols(t.work, at, t.width) {
        return Err(Ungraded { question: None, at });
    }
    let read = graded(t, at, ids, before);
    read.map_err(|q| Ungraded {
        question: Some(q),
        at,
    })
}

// Place and key of the i-th alternative.
fn put_grade(work: &mut [u8], places: usize, keys: usize, i: usize, at: usize, grade: Graded)
    requires { (i < 65536) × (places + 8 * i + 8 ≤ length work.old) × (keys + 8 * i + 8 ≤ length work.old) }
    ensures { work.new ≡ stored_grade work.old places keys i at grade.level grade.side }
{
    let k = Key::of(grade.level, i, grade.side);
    store64(work, places + 8 * i, at as u64);
    store64(work, keys + 8 * i, k.number);
}

// Whether the levels still ascend, behind one of a level.
fn ascends(before: bool, level: u32, next: u32) -> bool
    ensures { result ≡ still_ascends before level next }
{
    before && level <= next
}

// n alternatives from a place on, before e: whether their levels ascend. The error has the place where one can't be graded or doesn't stand.
// Ten parameters and no struct: it is called once, and its caller knows the place of the sorted keys, which precedence's `Keyed` has, only behind it.
pub fn grade(
    tape: &[u8],
    work: &mut [u8],
    m: Map,
    width: Width,
    ids: Ids,
    places: usize,
    keys: usize,
    n: usize,
    at: usize,
    e: usize,
) -> Result<bool, Ungraded>
    requires { Gradable tape.now work.old m places keys n e }
    ensures { Grades (grade_from width.bytes ids tape.now m e places keys n 0 at 0 Assoc.FullyAssoc true work.old) result work.new }
{
    let mut p = at;
    let mut before = Graded {
        level: 0,
        side: Assoc::FullyAssoc,
    };
    let mut ascending = true;
    for i in 0..n {
        let t = Words {
            tape,
            work,
            m,
            width,
        };
        let grade = next_grade(t, p, e, ids, before)?;
        let end = alternative_end(work, p, e, width);
        put_grade(work, places, keys, i, p, grade);
        ascending = ascends(ascending, before.level, grade.level);
        p = end;
        before = grade;
    }
    store64(work, places + 8 * n, p as u64);
    Ok(ascending)
}

// Where the alternative of a key stands, of n places; None where the key is of none of them.
fn place_of(work: &[u8], places: usize, n: usize, k: Key) -> Option<usize>
    requires { places + 8 * n ≤ length work.now }
    ensures { result ≡ place_of_key work.now places n k.number }
{
    let i = k.index();
    (i < n).then(|| u64_at(work, places + 8 * i) as usize)
}

// Among n sorted keys the first of the lowest level whose side is not FullyAssoc.
pub fn lowest(work: &[u8], keys: usize, n: usize, places: usize) -> Option<usize>
    requires { (keys + 8 * n ≤ length work.now) × (places + 8 * n ≤ length work.now) }
    ensures { result ≡ lowest_from work.now keys places n 0 n }
{
    (0..n)
        .take_while(|&i| same_level(work, keys, 0, i))
        .map(|i| Key::read(work, keys, i))
        .find(|k| k.side() != Assoc::FullyAssoc)
        .and_then(|k| place_of(work, places, n, k))
}

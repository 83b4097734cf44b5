// The name of a level: the nonterminal's name, then the level in decimal. It has no bytes yet: its record's mark describes it.
ghost use Rattle.std.specs.Prelude.{◌≡◌, ◌+◌, ◌*◌, ◌/◌, ◌%◌, ◌≤◌, ◌<◌, length, get_or};
ghost use Rattle.octets.specs.Plain.Runs.{same_as};
ghost use Rattle.texts.specs.Hash.{hash_from, hash_of};
ghost use Rattle.texts.specs.Fields.{mark_at};
ghost use Rattle.texts.specs.Table.{Finds};
ghost use Rattle.grades.specs.Grade.{level_digits};
ghost use Rattle.precedence.specs.Names.{spelt, Naming, Based, Spelled, BaseText, Describing, Described, LevelNamed, level_text, named_text, named_texts};

use grades::decimal::digit;
use grades::grade::decimal_size;
use texts::Map;
use texts::chain::{put_record, search};
use texts::fields::{hash, mark, text_mark};
use texts::hash::next;
use texts::text::text_at;

// The mark that describes the name of a level: the number of the nonterminal's name, times 2^32, and the level.
#[derive(Clone, Copy)]
pub struct NameMark {
    pub number: usize,
}

impl NameMark {
    pub fn of(base: usize, level: u32) -> NameMark
        requires { base < 4294967296 }
        ensures { result.number ≡ base * 4294967296 + level }
    {
        NameMark {
            number: base * 4294967296 + level as usize,
        }
    }

    pub fn base(self) -> usize
        ensures { result ≡ self.number / 4294967296 }
    {
        self.number / 4294967296
    }

    pub fn level(self) -> u32
        ensures { result ≡ self.number % 4294967296 }
    {
        (self.number % 4294967296) as u32
    }
}

// That of record k.
pub fn name_mark(work: &[u8], base: usize, k: usize) -> NameMark
    requires { base + 24 * k + 24 ≤ length work.now }
    ensures { result.number ≡ mark_at work.now base k }
{
    NameMark {
        number: mark(work, base, k),
    }
}

// The number of a text, and how many there are then.
#[derive(Clone, Copy)]
pub struct LevelName {
    pub name: usize,
    pub count: usize,
}

// The i-th digit of a level.
fn digit_at(v: u32, i: usize) -> u8
    requires { i < length (level_digits v) }
    ensures { result ≡ get_or (level_digits v) i 0 }
{
    let behind = decimal_size(v) - 1 - i;
    digit(v as usize / 10usize.pow(behind as u32) % 10)
}

// How many bytes a text has, with a level's digits behind it where there is a level.
pub fn spelt_size(t: &[u8], v: Option<u32>) -> usize
    ensures { result ≡ length (spelt t.now v) }
{
    match v {
        Some(v) => t.len() + decimal_size(v),
        None => t.len(),
    }
}

// The i-th of them.
fn byte_of(t: &[u8], v: Option<u32>, i: usize) -> u8
    requires { i < length (spelt t.now v) }
    ensures { result ≡ get_or (spelt t.now v) i 0 }
{
    match v {
        Some(v) => {
            if i < t.len() {
                t[i]
            } else {
                digit_at(v, i - t.len())
            }
        }
        None => t[i],
    }
}

// Whether a and the digits of u are b and the digits of v: where one text ends is no matter.
fn same_names(a: &[u8], u: Option<u32>, b: &[u8], v: Option<u32>) -> bool
    ensures { result ≡ same_as (spelt a.now u) (spelt b.now v) }
{
    let n = spelt_size(b, v);
    spelt_size(a, u) == n && (0..n).all(|i| byte_of(a, u, i) == byte_of(b, v, i))
}

// A text of the table. Apart from texts' `text`, which asks for the whole table. Here and below tape, work and m stay apart: `Based` and `Spelled` say of one text that it can be read, so a type
// with the fact of `Naming` would ask more, and one without a fact would make each clause longer.
pub fn base_text<'a>(tape: &'a [u8], work: &'a [u8], m: Map, k: usize) -> &'a [u8]
    requires { Based tape.now work.now m k }
    ensures { BaseText tape.now work.now m k result.now }
{
    text_at(tape, work, text_mark(work, m.base, k))
}

// The hash of a text with a level's digits behind it, from that of the text.
fn add_digits(x: u32, v: u32) -> u32
    ensures { result ≡ hash_from x (level_digits v) }
{
    (0..decimal_size(v)).fold(x, |h, i| next(h, digit_at(v, i)))
}

// The hash of a level's name goes on from that of the base. `tape` for the clauses alone.
fn level_hash(tape: &[u8], work: &[u8], m: Map, base: usize, level: u32) -> u32
    requires { Based tape.now work.now m base }
    ensures { result ≡ hash_of (level_text tape.now work.now m base level) }
{
    add_digits(hash(work, m.base, base), level)
}

// Whether text k, of the table or described, is the name of a level. Not inlined: else the closure in `find_name` is too long to be.
#[inline(never)]
fn is_level_name<'a>(
    tape: &'a [u8],
    work: &'a [u8],
    m: Map,
    base: usize,
    level: u32,
    k: usize,
) -> bool
    requires { Based tape.now work.now m base × Spelled tape.now work.now m k }
    ensures { result ≡ same_as (named_text tape.now work.now m k) (level_text tape.now work.now m base level) }
{
    let b = base_text(tape, work, m, base);
    if k < m.count {
        let t = text_at(tape, work, text_mark(work, m.base, k));
        return same_names(t, None, b, Some(level));
    }
    let x = name_mark(work, m.base, k);
    let c = x.base();
    let v = x.level();
    (c == base && v == level) || same_names(base_text(tape, work, m, c), Some(v), b, Some(level))
}

// The number of a level's name, of those of the table and described.
fn find_name<'a>(
    tape: &'a [u8],
    work: &'a [u8],
    m: Map,
    n: usize,
    base: usize,
    level: u32,
    h: u32,
) -> Option<usize>
    requires { Naming tape.now work.now m n × (base < m.count) × (h ≡ hash_of (level_text tape.now work.now m base level)) }
    ensures { Finds (named_texts tape.now work.now m n) (level_text tape.now work.now m base level) result }
{
    search(work, Map { count: n, ..m }, h, |i| {
        is_level_name(tape, work, m, base, level, i)
    })
}

// Record n describes the name of a level, and comes into its chain. `tape` for the clauses alone.
fn describe(tape: &[u8], work: &mut [u8], m: Map, n: usize, base: usize, level: u32, h: u32)
    requires { Describing tape.now work.old m n base level × (h ≡ hash_of (level_text tape.now work.old m base level)) }
    ensures { Described tape.now work.old m n base level work.new }
{
    let x = NameMark::of(base, level);
    put_record(work, Map { count: n, ..m }, x.number, h, 0);
}

// The number of a level's name, which is described if it is new.
pub fn level_name(
    tape: &[u8],
    work: &mut [u8],
    m: Map,
    n: usize,
    base: usize,
    level: u32,
) -> LevelName
    requires { Describing tape.now work.old m n base level }
    ensures { LevelNamed tape.now work.old m n base level result work.new }
{
    let h = level_hash(tape, work, m, base, level);
    match find_name(tape, work, m, n, base, level, h) {
        Some(k) => LevelName { name: k, count: n },
        None => {
            describe(tape, work, m, n, base, level, h);
            LevelName {
                name: n,
                count: n + 1,
            }
        }
    }
}

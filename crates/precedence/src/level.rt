// The nonterminal of one level, written behind what is written so far, as module write does it.
ghost use Rattle.std.specs.Prelude.{◌≡◌, ◌+◌, ◌-◌, ◌≤◌, ◌<◌, length};
ghost use Rattle.octets.specs.Plain.Numbers.{le};
ghost use Rattle.grades.specs.Annotations.{first_alternative};
ghost use Rattle.precedence.specs.Write.{Puts};
ghost use Rattle.precedence.specs.Level.{named_out, nonterminal_out, KeyInside, PutsKey, KeysInside, PutsAlternatives, level_count, LevelInside, PutsLevel};

use crate::substitute::Renaming;
use crate::write::{fall_through, put, put_alternative, put_run};
use grades::Ids;
use grades::annotations::{annotations, first_alternative};
use grades::key::Key;
use octets::numbers::{Width, store_atom, u64_at};
use parse_tree::node::{whole_alternative, whole_nonterminal};

// What all levels of a nonterminal are written by: the places and the sorted keys of its alternatives, which are two arrays in work, and the end of the room.
#[derive(Clone, Copy)]
pub struct Keyed {
    pub places: usize,
    pub keys: usize,
    pub ids: Ids,
    pub width: Width,
    pub lim: usize,
}

// One level: its keys from first up to last, its name, that of the next lower level, if there is one, and the name that a nonterminal gets where the next
// lower level is to stand, at the lowest too: levels hands in its own there.
#[derive(Clone, Copy)]
pub struct Level {
    pub first: usize,
    pub last: usize,
    pub name: u32,
    pub below: Option<u32>,
    pub lower: u32,
}

// A number of two or three bytes, if it ends at lim or before.
fn put_number(work: &mut [u8], v: u32, width: Width, lim: usize, to: usize) -> usize
    requires { lim + 16 ≤ length work.old }
    ensures { Puts work.old lim to (le width.bytes v) result work.new }
{
    put(work, width.bytes, lim, to, move |w| {
        store_atom(w, to, width, v)
    })
}

// A nonterminal's command with another name, up to the count of its alternatives.
fn put_named(work: &mut [u8], p: usize, name: u32, width: Width, lim: usize, to: usize) -> usize
    requires { (p + 11 + width.bytes ≤ to) × (to ≤ lim + 1) × (lim + 16 ≤ length work.old) }
    ensures { Puts work.old lim to (named_out width.bytes work.old p name) result work.new }
{
    let q = put_run(work, p, p + 9, lim, to);
    let r = put_number(work, name, width, lim, q);
    put_run(work, p + 9 + width.bytes, p + 11 + width.bytes, lim, r)
}

// The command of the nonterminal at p with another name and so many alternatives, and its arguments. Their number is put as an atom of two bytes,
// not by `store16`: with the fall-through it may be 65,536, which no u16 holds.
fn put_nonterminal_head(
    work: &mut [u8],
    p: usize,
    name: u32,
    many: u32,
    width: Width,
    lim: usize,
    to: usize,
) -> usize
    requires { (first_alternative width.bytes work.old p ≤ to) × (to ≤ lim + 1) × (lim + 16 ≤ length work.old) }
    ensures { Puts work.old lim to (nonterminal_out width.bytes work.old p name many) result work.new }
{
    let e = first_alternative(work, p, width);
    let q = put_named(work, p, name, width, lim, to);
    let r = put_number(work, many, Width { bytes: 2 }, lim, q);
    put_run(work, p + 13 + width.bytes, e, lim, r)
}

// The alternative of a key without its first `precedence` and its first `assoc`.
fn put_key(work: &mut [u8], t: Keyed, k: Key, target: u32, l: Level, to: usize) -> usize
    requires { KeyInside t.width.bytes work.old t.places t.lim to k.number × (to ≤ t.lim + 1) × (t.lim + 16 ≤ length work.old) }
    ensures { PutsKey t.width.bytes t.ids t.places target l t.lim k.number work.old to result work.new }
{
    let at = t.places + 8 * k.index();
    let p = u64_at(work, at) as usize;
    let e = u64_at(work, at + 8) as usize;
    let n = usize::from(whole_alternative(work, p, t.width).attributes);
    let f = annotations(work, p + (14 + t.width.bytes), n, t.width, t.ids);
    let names = Renaming {
        target,
        here: l.name,
        below: l.lower,
        side: k.side(),
    };
    put_alternative(work, p, e, f, t.width, names, t.lim, to)
}

// The alternatives of a level.
fn put_alternatives(work: &mut [u8], t: Keyed, target: u32, l: Level, to: usize) -> usize
    requires { KeysInside t.width.bytes work.old t.places t.keys l t.lim to × (to ≤ t.lim + 1) × (t.lim + 16 ≤ length work.old) }
    ensures { PutsAlternatives t.width.bytes t.ids t.places t.keys target l t.lim work.old to result work.new }
{
    let mut q = to;
    for i in l.first..l.last {
        let k = Key::read(work, t.keys, i);
        q = put_key(work, t, k, target, l, q);
    }
    q
}

// How many alternatives a level has, with its fall-through.
fn count_of(l: Level) -> u32
    requires { (l.first ≤ l.last) × (l.last - l.first < 65536) }
    ensures { result ≡ level_count l }
{
    let n = (l.last - l.first) as u32;
    match l.below {
        Some(_) => n + 1,
        None => n,
    }
}

// The nonterminal at p, as this level has it: its command and arguments, the alternatives of the level, and the fall-through if it is not the lowest.
pub fn write_level(work: &mut [u8], p: usize, t: Keyed, l: Level, to: usize) -> usize
    requires { LevelInside t.width.bytes work.old p t.places t.keys l t.lim to }
    ensures { PutsLevel t.width.bytes t.ids p t.places t.keys l t.lim work.old to result work.new }
{
    let many = count_of(l);
    let target = whole_nonterminal(work, p, t.width).name.0;
    let q = put_nonterminal_head(work, p, l.name, many, t.width, t.lim, to);
    let r = put_alternatives(work, t, target, l, q);
    match l.below {
        Some(below) => fall_through(work, p, below, t.width, t.lim, r),
        None => r,
    }
}

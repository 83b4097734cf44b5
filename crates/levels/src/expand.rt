// One annotated nonterminal: its alternatives graded and sorted, and an item written for each level.
ghost use Rattle.std.specs.Prelude.{◌≡◌, false, None, ◌<◌, length};
ghost use Rattle.grades.specs.Sort.{Arrays};
ghost use Rattle.precedence.specs.Names.{Describing};
ghost use Rattle.levels.specs.Expand.{NamesLevel, SortsKeys, SomeLeft, Steps, Finishes, SomeExpandable, ExpandsOne};

use crate::{Room, Written};
use grades::Ids;
use grades::alternatives::{grade, lowest};
use grades::annotations::first_alternative;
use grades::key::Key;
use grades::sort::{group_end, sort};
use octets::numbers::Width;
use parse_tree::node::whole_nonterminal;
use parse_tree::refusal::{Question, Refusal};
use precedence::level::{Keyed, Level, write_level};
use precedence::names::{LevelName, level_name};
use texts::Map;

// What is read and where is written, the same for each nonterminal.
#[derive(Clone, Copy)]
pub struct Plan {
    pub m: Map,
    pub room: Room,
    pub width: Width,
    pub ids: Ids,
}

// An annotated nonterminal, from p up to e (`e` for the clauses alone): the places and the sorted keys of its n alternatives are two arrays.
#[derive(Clone, Copy)]
pub struct Annotated {
    pub p: usize,
    pub e: usize,
    pub places: usize,
    pub keys: usize,
    pub n: usize,
}

// The level whose keys were written: where they end, its name, how many texts there are then, and the place behind its item.
#[derive(Clone, Copy)]
pub struct Next {
    pub last: usize,
    pub name: u32,
    pub count: usize,
    pub to: usize,
}

// "The highest level keeps the name; the others append the level"
fn name_level(
    tape: &[u8],
    work: &mut [u8],
    m: Map,
    n: usize,
    base: usize,
    level: usize,
    highest: bool,
) -> LevelName
    requires { highest ≡ false → Describing tape.now work.old m n base level }
    ensures { NamesLevel tape.now work.old m n base level highest result work.new }
{
    if highest {
        LevelName {
            name: base,
            count: n,
        }
    } else {
        level_name(tape, work, m, n, base, level as u32)
    }
}

// The level whose keys begin at the i-th of n, above the one named `below`, if there is one.
fn next_level(
    tape: &[u8],
    work: &mut [u8],
    g: Plan,
    a: Annotated,
    i: usize,
    below: Option<u32>,
    v: Written,
) -> Next
    requires { (i < a.n) × SomeLeft tape.now g.m g.room g.width.bytes g.ids a.p a.e a.places a.keys a.n i below v work.old }
    ensures { Steps tape.now g.m g.room g.width.bytes g.ids a.p a.e a.places a.keys a.n i below v work.old result work.new }
{
    let j = group_end(work, a.keys, a.n, i);
    let base = whole_nonterminal(work, a.p, g.width).name.0 as usize;
    let level = Key::read(work, a.keys, i).level();
    let x = name_level(tape, work, g.m, v.count, base, level, j == a.n);
    let name = x.name as u32;
    let l = Level {
        first: i,
        last: j,
        name,
        below,
        lower: below.unwrap_or(name),
    };
    let t = Keyed {
        places: a.places,
        keys: a.keys,
        ids: g.ids,
        width: g.width,
        lim: g.room.lim,
    };
    let to = write_level(work, a.p, t, l, v.to);
    Next {
        last: j,
        name,
        count: x.count,
        to,
    }
}

// An item for each level, ascending.
fn write_levels(tape: &[u8], work: &mut [u8], g: Plan, a: Annotated, mut v: Written) -> Written
    requires { SomeLeft tape.now g.m g.room g.width.bytes g.ids a.p a.e a.places a.keys a.n 0 None v work.old }
    ensures { Finishes tape.now g.m g.room g.width.bytes g.ids a.p a.e a.places a.keys a.n 0 None v work.old result work.new }
{
    let mut i = 0;
    let mut below = None;
    while i < a.n {
        let x = next_level(tape, work, g, a, i, below, v);
        i = x.last;
        below = Some(x.name);
        v = Written {
            to: x.to,
            count: x.count,
        };
    }
    v
}

// The place of the sorted keys; what ascends already is not merged.
fn sorted(work: &mut [u8], keys: usize, other: usize, n: usize, ascending: bool) -> usize
    requires { Arrays (length work.old) keys other n }
    ensures { SortsKeys work.old keys other n ascending result work.new }
{
    if ascending {
        keys
    } else {
        sort(work, keys, other, n)
    }
}

// The annotated nonterminal from p up to e.
pub fn expand_nonterm(
    tape: &[u8],
    work: &mut [u8],
    g: Plan,
    p: usize,
    e: usize,
    v: Written,
) -> Result<Written, Refusal>
    requires { SomeExpandable tape.now g.m g.room g.width.bytes g.ids p e v work.old }
    ensures { ExpandsOne tape.now g.m g.room g.width.bytes g.ids p e v work.old result work.new }
{
    let n = usize::from(whole_nonterminal(work, p, g.width).alternatives);
    let places = g.room.arrays;
    let keys = places + 8 * n + 8;
    let at = first_alternative(work, p, g.width);
    let ascending = match grade(tape, work, g.m, g.width, g.ids, places, keys, n, at, e) {
        Ok(ascending) => ascending,
        Err(why) => match why.question {
            Some(q) => return Err(q.of_command(work, why.at)),
            // The n alternatives stand before e.
            None => unreachable!(),
        },
    };
    let keys = sorted(work, keys, keys + 8 * n, n, ascending);
    if let Some(low) = lowest(work, keys, n, places) {
        return Err(Question::LowestLevel.of_command(work, low));
    }
    let a = Annotated {
        p,
        e,
        places,
        keys,
        n,
    };
    Ok(write_levels(tape, work, g, a, v))
}

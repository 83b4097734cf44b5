// Occurrences of a nonterminal among symbols that stand in work, renamed where they stand: all to one name, then the first or the last to another.
ghost use Rattle.std.specs.Prelude.{◌≡◌, Some, ◌+◌, ◌≤◌, length};
ghost use Rattle.octets.specs.Plain.Numbers.{le};
ghost use Rattle.octets.specs.Working.Stores.{store};
ghost use Rattle.grades.specs.Skip.{names_at};
ghost use Rattle.precedence.specs.Substitute.{marked_at, Replaces, MarksIn, replace_all, substitute_out};

use grades::Assoc;
use octets::numbers::{Width, atom_at, store_atom};
use parse_tree::size::long;

// How occurrences of the target are named: `here` is the name of the alternative's level, `below` that of the next lower one.
#[derive(Clone, Copy)]
pub struct Renaming {
    pub target: u32,
    pub here: u32,
    pub below: u32,
    pub side: Assoc,
}

// Where the first and the last occurrence stood.
#[derive(Clone, Copy)]
pub struct Marks {
    pub first: usize,
    pub last: usize,
}

// Whether the command at a place is an occurrence of the nonterminal `target`.
fn names(work: &[u8], at: usize, width: Width, target: u32) -> bool
    requires { at + 16 ≤ length work.now }
    ensures { result ≡ names_at width.bytes target work.now at }
{
    work[at] == 36 && atom_at(work, at + 9, width) == target
}

// One more occurrence, at p.
fn marked(m: Option<Marks>, p: usize) -> Marks
    ensures { result ≡ marked_at p m }
{
    match m {
        Some(m) => Marks {
            first: m.first,
            last: p,
        },
        None => Marks { first: p, last: p },
    }
}

// The occurrence at p is renamed and marked.
fn replace_symbol(work: &mut [u8], p: usize, width: Width, rest: u32, m: Option<Marks>) -> Marks
    requires { p + 16 ≤ length work.old }
    ensures { Replaces (store work.old (p + 9) (le width.bytes rest), Some (marked_at p m)) (Some result) work.new }
{
    store_atom(work, p + 9, width, rest);
    marked(m, p)
}

// Every occurrence from a place up to e is renamed.
fn replace_symbols(
    work: &mut [u8],
    at: usize,
    e: usize,
    width: Width,
    target: u32,
    rest: u32,
) -> Option<Marks>
    requires { e + 16 ≤ length work.old }
    ensures { Replaces (replace_all width.bytes target rest work.old at e) result work.new × MarksIn at e result }
{
    let mut p = at;
    let mut m = None;
    while p < e {
        if names(work, p, width, target) {
            m = Some(replace_symbol(work, p, width, rest, m));
            p += 9 + width.bytes;
        } else {
            p += long(work[p], width);
        }
    }
    m
}

// The occurrences of the target from a place up to e, renamed as the side says.
pub fn substitute(work: &mut [u8], at: usize, e: usize, width: Width, names: Renaming)
    requires { e + 16 ≤ length work.old }
    ensures { work.new ≡ substitute_out width.bytes work.old at e names.target names.here names.below names.side }
{
    match names.side {
        Assoc::Left => {
            if let Some(m) = replace_symbols(work, at, e, width, names.target, names.below) {
                store_atom(work, m.first + 9, width, names.here);
            }
        }
        Assoc::Right => {
            if let Some(m) = replace_symbols(work, at, e, width, names.target, names.below) {
                store_atom(work, m.last + 9, width, names.here);
            }
        }
        Assoc::NonAssoc => {
            replace_symbols(work, at, e, width, names.target, names.below);
        }
        Assoc::FullyAssoc => {
            if names.here != names.target {
                replace_symbols(work, at, e, width, names.target, names.here);
            }
        }
    }
}

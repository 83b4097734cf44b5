// The replacing stage: a run over the commands of the unreplaced items. A symbol that is expanded gives way to the nonterminal of its printed form, every other command is copied, and
// definitions of macros are left out.
ghost use Rattle.std.specs.Prelude.{◌≡◌, ◌+◌, ◌≤◌, ◌<◌, length};
ghost use Rattle.expander.specs.Ground.{size_in, Grounded};
ghost use Rattle.parse_tree.specs.Working.Nodes.{code_size};
ghost use Rattle.expander.specs.Stage.{item_code, macro_at, name_code, uncopied_at, RoomFor, SomeHops, Skips, SomeFormed, PutsFormed, SomeWalk, Copies, SomeTurn, Turns, SomeStage, Stages};

use crate::Ground;
use crate::replace::{Formed, is_expanded, replace_symbol};
use crate::slots::number;
use octets::numbers::{Width, u64_at};
use parse_tree::node::whole_nonterminal;
use parse_tree::size::size_by_code;
use precedence::write::{copy_within, store_nonterminal};

// Where the run stands: the place to read on at, the place to write on at, how many symbols are pushed, how many texts are new.
#[derive(Clone, Copy)]
pub struct Replaced {
    pub at: usize,
    pub to: usize,
    pub pile: usize,
    pub count: usize,
}

// Whether an item begins with this code.
pub fn is_item(c: u8) -> bool
    ensures { result ≡ item_code c }
{
    matches!(c, 16 | 48..=49)
}

// Whether the definition of a macro begins at a place of work, where a command of the code c stands.
fn is_macro(work: &[u8], width: Width, at: usize, c: u8) -> bool
    requires { at + code_size width.bytes c ≤ length work.now }
    ensures { result ≡ macro_at width.bytes work.now at c }
{
    c == 16 && 0 < whole_nonterminal(work, at, width).args
}

// The place of the next item from p on, or the end.
// A loop, here and in `run_end` and `replace_items`: what is read at a place decides where the next turn begins, so an iterator of commands would be this loop with its place in a struct. `tape` for the clauses alone.
fn next_item(tape: &[u8], work: &[u8], g: &Ground, p: usize) -> usize
    requires { Grounded tape.now work.now g.now × SomeHops work.now g.now p }
    ensures { Skips work.now g.now p result }
{
    let end = g.end - g.from;
    let mut q = p;
    while q < end {
        let c = work[g.from + q];
        if is_item(c) {
            return q;
        }
        q += size_by_code(c, g.width);
    }
    q
}

// Whether a command of this code is a span and the number of a text: most are, so this is asked first.
fn is_named_leaf(c: u8) -> bool
    ensures { result ≡ name_code c }
{
    matches!(c, 32..=36)
}

// Whether what begins at a place of work with the code c is not copied as it stands.
fn is_uncopied(work: &[u8], width: Width, at: usize, c: u8) -> bool
    requires { RoomFor width.bytes work.now at c }
    ensures { result ≡ uncopied_at width.bytes work.now at c }
{
    is_expanded(c) || is_macro(work, width, at, c)
}

// The place behind the commands from p on that are copied: of a symbol that is expanded, of the definition of a macro, or the end. `tape` for the clauses alone.
fn run_end(tape: &[u8], work: &[u8], g: &Ground, p: usize) -> usize
    requires { Grounded tape.now work.now g.now × SomeWalk tape.now work.now g.now p }
    ensures { Copies tape.now work.now g.now p result }
{
    let end = g.end - g.from;
    let mut q = p;
    while q < end {
        let c = work[g.from + q];
        if is_named_leaf(c) {
            q += 9 + g.width.bytes;
        } else {
            if is_uncopied(work, g.width, g.from + q, c) {
                return q;
            }
            q += size_by_code(c, g.width);
        }
    }
    q
}

// The nonterminal of the symbol at r.at, behind which k says where to read on.
fn put_key(tape: &[u8], work: &mut [u8], g: &Ground, r: Replaced, k: Formed) -> Replaced
    requires { Grounded tape.now work.old g.now × SomeFormed tape.now work.old g.now r k }
    ensures { PutsFormed tape.now work.old g.now r k result work.new }
{
    let x = number(tape, work, g, k.pile, r.count, r.at);
    let span = u64_at(work, g.from + r.at + 1);
    store_nonterminal(work, span, x.atom(), g.width, r.to);
    Replaced {
        at: k.at,
        to: r.to + 9 + g.width.bytes,
        pile: k.pile,
        count: x.count,
    }
}

// The command at r.at, n bytes long, and those behind it that are copied as well.
fn copy_run(tape: &[u8], work: &mut [u8], g: &Ground, r: Replaced, n: usize) -> Replaced
    requires { Grounded tape.now work.old g.now × SomeTurn tape.now work.old g.now r × Copies tape.now work.old g.now r.at (r.at + n) × (0 < n) }
    ensures { Turns tape.now work.old g.now r result work.new }
{
    let e = run_end(tape, work, g, r.at + n);
    copy_within(work, g.from + r.at, g.from + e, r.to);
    Replaced {
        at: e,
        to: r.to + (e - r.at),
        ..r
    }
}

// Commands that are copied, or one symbol that is expanded, or one definition of a macro.
fn replace_next(tape: &[u8], work: &mut [u8], g: &Ground, r: Replaced) -> Replaced
    requires { Grounded tape.now work.old g.now × SomeTurn tape.now work.old g.now r × (r.at < size_in g.now) }
    ensures { Turns tape.now work.old g.now r result work.new }
{
    let at = g.from + r.at;
    let c = work[at];
    if is_expanded(c) {
        let k = replace_symbol(tape, work, g, 64, r.at, r.pile);
        return put_key(tape, work, g, r, k);
    }
    let n = size_by_code(c, g.width);
    if is_macro(work, g.width, at, c) {
        return Replaced {
            at: next_item(tape, work, g, r.at + n),
            ..r
        };
    }
    copy_run(tape, work, g, r, n)
}

// The items, written from `to` on.
pub fn replace_items(tape: &[u8], work: &mut [u8], g: &Ground, to: usize) -> Replaced
    requires { Grounded tape.now work.old g.now × SomeStage tape.now work.old g.now to }
    ensures { Stages tape.now work.old g.now to result work.new }
{
    let end = g.end - g.from;
    let mut r = Replaced {
        at: 0,
        to,
        pile: 0,
        count: 0,
    };
    while r.at < end {
        r = replace_next(tape, work, g, r);
    }
    r
}

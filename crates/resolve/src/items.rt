// Each item: its arguments are marked in their cells, its commands asked, and the marks taken away.
ghost use Rattle.std.specs.Prelude.{◌≡◌, ◌+◌, ◌*◌, ◌≤◌, ◌<◌, length};
ghost use Rattle.resolve.specs.Cells.{Room};
ghost use Rattle.resolve.specs.Commands.{Runs};
ghost use Rattle.resolve.specs.Items.{Standing, item_place, item_place_in, Marks, marks_out, unmarks_out, item_out, items_out};

use crate::cells::{define, known};
use crate::commands::validate_commands;
use crate::{Grammar, Scope};
use octets::numbers::{atom_at, u64_at};
use parse_tree::node::whole_nonterminal;
use parse_tree::refusal::{Question, Refusal};

// The place of the i-th of n items that stand from `at` up to `end`, or the end for one behind the last; a place that is listed behind the end is the end, too.
pub fn place(work: &[u8], list: usize, n: usize, at: usize, end: usize, i: usize) -> usize
    requires { (list + 8 * n ≤ length work.now) × (at ≤ end) }
    ensures { (result ≡ item_place list n at end work.now i) × (at ≤ result) × (result ≤ end) }
{
    if n <= i {
        return end;
    }
    let v = u64_at(work, list + 8 * i) as usize;
    at + v.min(end - at)
}

impl Grammar {
    // That of its i-th item.
    pub fn place(self, work: &[u8], i: usize) -> usize
        requires { (self.list + 8 * self.count ≤ length work.now) × (self.at ≤ self.end) }
        ensures { (result ≡ item_place_in self work.now i) × (self.at ≤ result) × (result ≤ self.end) }
    {
        place(work, self.list, self.count, self.at, self.end, i)
    }
}

// "arguments distinct? 7": the n arguments at a place are marked, as long as none has a mark.
fn validate_macro_args(work: &mut [u8], s: Scope, n: usize, at: usize) -> bool
    requires { Room s.texts (length work.old) × (at + n * (1 + s.grammar.width.bytes) ≤ length work.old) }
    ensures { Marks (marks_out s.texts s.grammar.width.bytes n work.old at) result work.new }
{
    for k in 0..n {
        let p = at + k * (1 + s.grammar.width.bytes);
        let id = atom_at(work, p + 1, s.grammar.width);
        let d = known(work, s.texts, id);
        if d.is_argument() {
            return false;
        }
        define(work, s.texts, id, d.as_argument());
    }
    true
}

// The marks of the n arguments at a place are taken away.
fn forget_macro_args(work: &mut [u8], s: Scope, n: usize, at: usize)
    requires { Room s.texts (length work.old) × (at + n * (1 + s.grammar.width.bytes) ≤ length work.old) }
    ensures { work.new ≡ unmarks_out s.texts s.grammar.width.bytes n work.old at }
{
    for k in 0..n {
        let p = at + k * (1 + s.grammar.width.bytes);
        let id = atom_at(work, p + 1, s.grammar.width);
        let d = known(work, s.texts, id);
        define(work, s.texts, id, d.as_global());
    }
}

// The nonterminal from a place up to e.
fn validate_item(work: &mut [u8], s: Scope, at: usize, e: usize) -> Result<(), Refusal>
    requires { Standing s.texts s.grammar (length work.old) × (at + 16 ≤ length work.old) × (e ≤ s.grammar.end) × (0 < s.grammar.count) }
    ensures { Runs (item_out s.texts s.grammar work.old at e) result work.new }
{
    let t = s.grammar;
    // Read before the marks are written.
    let d = whole_nonterminal(work, at, t.width);
    let n = usize::from(d.args);
    let a = at + 13 + t.width.bytes;
    let p = a + n * (1 + t.width.bytes);
    if t.end < p {
        return Ok(());
    }
    if !validate_macro_args(work, s, n, a) {
        return Err(Question::Arguments.over(d.span));
    }
    validate_commands(work, s, p, e)?;
    forget_macro_args(work, s, n, a);
    Ok(())
}

// All items, in order.
pub fn validate(work: &mut [u8], s: Scope) -> Result<(), Refusal>
    requires { Standing s.texts s.grammar (length work.old) }
    ensures { Runs (items_out s.texts s.grammar s.grammar.count 0 work.old) result work.new }
{
    for i in 0..s.grammar.count {
        let p = s.grammar.place(work, i);
        if work[p] == 16 {
            let e = s.grammar.place(work, i + 1);
            validate_item(work, s, p, e)?;
        }
    }
    Ok(())
}

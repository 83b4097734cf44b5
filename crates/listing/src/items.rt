// The lines of items that stand in work: those of nonterminals, with their alternatives.
ghost use Rattle.std.specs.Prelude.{◌+◌, ◌≤◌, length};
ghost use Rattle.octets.specs.Plain.Numbers.{le_at};
ghost use Rattle.parse_tree.specs.Working.Encode.{alternative_bytes, item_bytes};
ghost use Rattle.grades.specs.Annotations.{first_alternative};
ghost use Rattle.settling.specs.Print.{Printable};
ghost use Rattle.listing.specs.Listing.{listed_alternative, listed_item};
ghost use Rattle.listing.specs.Walk.{AlternativeGood, ItemGood, SomeOne, SomeAll, ShowsOne, ShowsAll};

use crate::alternatives::list_alternatives;
use crate::head::put_head;
use grades::annotations::first_alternative;
use parse_tree::node::whole_nonterminal;
use settling::{Page, Printed};

// The lines of the alternatives of the nonterminal at a place.
fn list_rest(page: Page, work: &mut [u8], at: usize, to: usize) -> Printed
    requires { Printable page.tape.now work.old page.m page.width.bytes page.lim to × (at + 13 + page.width.bytes ≤ length work.old) × SomeAll (AlternativeGood page.width.bytes) (alternative_bytes page.width.bytes) page.tape.now work.old page.m (le_at 2 work.old (at + 11 + page.width.bytes)) (first_alternative page.width.bytes work.old at) to }
    ensures { ShowsAll (AlternativeGood page.entry.width.bytes) (alternative_bytes page.entry.width.bytes) page.entry.tape.now work.old page.entry.m listed_alternative (le_at 2 work.old (at + 11 + page.entry.width.bytes)) (first_alternative page.entry.width.bytes work.old at) page.entry.lim to result work.new }
{
    let n = usize::from(whole_nonterminal(work, at, page.width).alternatives);
    let a = first_alternative(work, at, page.width);
    list_alternatives(page, work, a, n, to)
}

// The lines of the item at a place: none, if it is a terminal.
fn list_item(page: Page, work: &mut [u8], at: usize, to: usize) -> Printed
    requires { Printable page.tape.now work.old page.m page.width.bytes page.lim to × SomeOne (ItemGood page.width.bytes) (item_bytes page.width.bytes) page.tape.now work.old page.m at to }
    ensures { ShowsOne (ItemGood page.entry.width.bytes) (item_bytes page.entry.width.bytes) page.entry.tape.now work.old page.entry.m listed_item at page.entry.lim to result work.new }
{
    let c = work[at];
    if c == 16 {
        let q = put_head(page, work, at, to);
        return list_rest(page, work, at, q);
    }
    Printed {
        at: at + 9 + page.width.bytes,
        to,
    }
}

// Those of n items. The loop is that of list_alternatives: one body for both would take a closure, and clauses longer than the loop would say what the
// closure asks of any work, and leaves of it.
pub fn list_items(page: Page, work: &mut [u8], at: usize, n: usize, to: usize) -> Printed
    requires { Printable page.tape.now work.old page.m page.width.bytes page.lim to × SomeAll (ItemGood page.width.bytes) (item_bytes page.width.bytes) page.tape.now work.old page.m n at to }
    ensures { ShowsAll (ItemGood page.entry.width.bytes) (item_bytes page.entry.width.bytes) page.entry.tape.now work.old page.entry.m listed_item n at page.entry.lim to result work.new }
{
    let mut p = at;
    let mut q = to;
    for _ in 0..n {
        let z = list_item(page, work, p, q);
        p = z.at;
        q = z.to;
    }
    Printed { at: p, to: q }
}

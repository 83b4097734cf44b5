// The lines of alternatives that stand in work.
ghost use Rattle.parse_tree.specs.Working.Encode.{alternative_bytes};
ghost use Rattle.settling.specs.Print.{Printable};
ghost use Rattle.listing.specs.Listing.{listed_alternative};
ghost use Rattle.listing.specs.Walk.{AlternativeGood, SomeOne, SomeAll, ShowsOne, ShowsAll};

use crate::action::put_tail;
use grades::annotations::symbols;
use parse_tree::node::whole_alternative;
use settling::print::print_list;
use settling::put::put_slice;
use settling::{Page, Printed};

// The line of the alternative at a place. Symbols are separated as those of a group.
fn list_alternative(page: Page, work: &mut [u8], at: usize, to: usize) -> Printed
    requires { Printable page.tape.now work.old page.m page.width.bytes page.lim to × SomeOne (AlternativeGood page.width.bytes) (alternative_bytes page.width.bytes) page.tape.now work.old page.m at to }
    ensures { ShowsOne (AlternativeGood page.entry.width.bytes) (alternative_bytes page.entry.width.bytes) page.entry.tape.now work.old page.entry.m listed_alternative at page.entry.lim to result work.new }
{
    let n = usize::from(whole_alternative(work, at, page.width).symbols);
    let b = symbols(work, at, page.width);
    let q = put_slice(work, b"  ", page.lim, to);
    let z = print_list(page, work, 64, b, n, 41, q);
    let r = put_tail(page, work, at, z.to);
    Printed { at: z.at, to: r }
}

// Those of n of them.
pub fn list_alternatives(page: Page, work: &mut [u8], at: usize, n: usize, to: usize) -> Printed
    requires { Printable page.tape.now work.old page.m page.width.bytes page.lim to × SomeAll (AlternativeGood page.width.bytes) (alternative_bytes page.width.bytes) page.tape.now work.old page.m n at to }
    ensures { ShowsAll (AlternativeGood page.entry.width.bytes) (alternative_bytes page.entry.width.bytes) page.entry.tape.now work.old page.entry.m listed_alternative n at page.entry.lim to result work.new }
{
    let mut p = at;
    let mut q = to;
    for _ in 0..n {
        let z = list_alternative(page, work, p, q);
        p = z.at;
        q = z.to;
    }
    Printed { at: p, to: q }
}

// The attributes `precedence` and `assoc` of alternatives that stand in work.
ghost use Rattle.std.specs.Prelude.{◌≡◌, ◌+◌, ◌≤◌, ◌<◌, length};
ghost use Rattle.grades.specs.Annotations.{attributes_long, Finding, Annotates, annotated_at, first_alternative, HeadInside, has_prec_attr, conditions_from, symbols_from, alternative_end};

use crate::skip::skip;
use crate::{Ids, Indices};
use octets::numbers::Width;
use parse_tree::node::{whole_alternative, whole_attribute, whole_nonterminal};

// The index of the first attribute of an id among the n that stand from a place on.
fn position(work: &[u8], at: usize, n: usize, width: Width, id: Option<usize>) -> Option<usize>
    requires { at + attributes_long width.bytes n ≤ length work.now }
    ensures { Finding width.bytes id work.now at n result }
{
    let k = id?;
    let size = 2 + 3 * width.bytes;
    (0..n).find(|&i| k == whole_attribute(work, at + size * i, width).id.0 as usize)
}

// Of both ids.
pub fn annotations(work: &[u8], at: usize, n: usize, width: Width, ids: Ids) -> Indices
    requires { at + attributes_long width.bytes n ≤ length work.now }
    ensures { Annotates width.bytes ids work.now at n result }
{
    Indices {
        precedence: position(work, at, n, width, ids.precedence),
        assoc: position(work, at, n, width, ids.assoc),
    }
}

// Whether the alternative at a place has one of the two.
#[tactic(auto, using(crate::proofs::AnnotationsCode::end_whole), unfolding(crate::specs::Annotations::conditions_from))]
fn annotated(work: &[u8], at: usize, width: Width, ids: Ids) -> bool
    requires { conditions_from width.bytes work.now at ≤ length work.now }
    ensures { result ≡ annotated_at width.bytes ids work.now at }
{
    let n = usize::from(whole_alternative(work, at, width).attributes);
    let f = annotations(work, at + 14 + width.bytes, n, width, ids);
    f.precedence.is_some() || f.assoc.is_some()
}

// Where the first alternative of the nonterminal at a place stands.
pub fn first_alternative(work: &[u8], at: usize, width: Width) -> usize
    requires { at + 13 + width.bytes ≤ length work.now }
    ensures { result ≡ first_alternative width.bytes work.now at }
{
    let args = usize::from(whole_nonterminal(work, at, width).args);
    at + 13 + width.bytes + (1 + width.bytes) * args
}

// Whether the item at a place is a nonterminal whose first alternative has one of the two.
pub fn has_prec_attr(work: &[u8], at: usize, width: Width, ids: Ids) -> bool
    requires { HeadInside width.bytes work.now at }
    ensures { result ≡ has_prec_attr width.bytes ids work.now at }
{
    work[at] == 16
        && whole_nonterminal(work, at, width).alternatives != 0
        && annotated(work, first_alternative(work, at, width), width, ids)
}

// Where the conditions of the alternative at p begin. Here and below counts are read by their places: a reader of the whole command would ask for more than 11 bytes.
pub fn conditions(work: &[u8], p: usize, width: Width) -> usize
    requires { p + 11 ≤ length work.now }
    ensures { (result ≡ conditions_from width.bytes work.now p) × (result < p + 4096) }
{
    let n = usize::from(work[p + 9]);
    p + (14 + width.bytes) + n * (2 + 3 * width.bytes)
}

// Where its symbols begin.
pub fn symbols(work: &[u8], p: usize, width: Width) -> usize
    requires { p + 11 ≤ length work.now }
    ensures { result ≡ symbols_from width.bytes work.now p }
{
    let c = usize::from(work[p + 10]);
    conditions(work, p, width) + c * (10 + 2 * width.bytes)
}

// The place behind the alternative at a place, which ends before e.
pub fn alternative_end(work: &[u8], at: usize, e: usize, width: Width) -> usize
    requires { (at < e) × (e + 16 ≤ length work.now) }
    ensures { result ≡ alternative_end width.bytes work.now at e }
{
    let n = usize::from(whole_alternative(work, at, width).symbols);
    skip(work, symbols(work, at, width), e, n, width)
}

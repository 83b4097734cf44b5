// The level and the side of an alternative that stands in work.
ghost use Rattle.std.specs.Prelude.{◌≡◌, IfSome, ◌+◌, ◌*◌, ◌≤◌, ◌<◌, length};
ghost use Rattle.texts.specs.Table.{texts};
ghost use Rattle.grades.specs.Annotations.{value_text, attributes_long, conditions_from};
ghost use Rattle.grades.specs.Grading.{sided_at, graded_at};

use crate::annotations::annotations;
use crate::grade::{read_assoc, read_level};
use crate::words::Words;
use crate::{Assoc, Graded, Ids};
use parse_tree::node::{whole_alternative, whole_attribute};
use parse_tree::refusal::Question;

// The text of the value of the attribute at a place; empty where it has none.
fn value<'a>(t: Words<'a>, at: usize) -> &'a [u8]
    requires { at + (2 + 3 * t.width.bytes) ≤ length t.work.now }
    ensures { result.now ≡ value_text t.entry.width.bytes (texts t.entry.tape.now t.entry.work.now t.entry.m) t.entry.work.now at }
{
    let attribute = whole_attribute(t.work, at, t.width);
    if attribute.kind == 0 {
        &t.tape[0..0]
    } else {
        t.text(attribute.value.0 as usize)
    }
}

// That of the i-th of n attributes from a place on. `n` for the clauses alone.
fn nth_value<'a>(t: Words<'a>, at: usize, n: usize, i: usize) -> &'a [u8]
    requires { (n < 256) × (i < n) × (at + attributes_long t.width.bytes n ≤ length t.work.now) }
    ensures { result.now ≡ value_text t.entry.width.bytes (texts t.entry.tape.now t.entry.work.now t.entry.m) t.entry.work.now (at + attributes_long t.entry.width.bytes i) }
{
    value(t, at + (2 + 3 * t.width.bytes) * i)
}

// The side of an alternative whose level is known: the j-th of its n attributes says it, or it is handed on.
fn sided<'a>(
    t: Words<'a>,
    at: usize,
    n: usize,
    j: Option<usize>,
    grade: Graded,
) -> Result<Graded, Question>
    requires { (n < 256) × IfSome j (λ k. k < n) × (at + attributes_long t.width.bytes n ≤ length t.work.now) }
    ensures { result ≡ sided_at t.entry.width.bytes (texts t.entry.tape.now t.entry.work.now t.entry.m) t.entry.work.now at j grade.level grade.side }
{
    match j {
        None => Ok(grade),
        Some(j) => {
            let side = read_assoc(nth_value(t, at, n, j)).ok_or(Question::Side)?;
            Ok(Graded { side, ..grade })
        }
    }
}

// Level and side of the alternative at a place; those of the one before are handed on, but a level that is said resets the side.
#[tactic(auto, using(crate::proofs::AnnotationsCode::end_whole), unfolding(crate::specs::Annotations::conditions_from))]
pub fn graded<'a>(t: Words<'a>, at: usize, ids: Ids, before: Graded) -> Result<Graded, Question>
    requires { conditions_from t.width.bytes t.work.now at ≤ length t.work.now }
    ensures { result ≡ graded_at t.entry.width.bytes ids (texts t.entry.tape.now t.entry.work.now t.entry.m) t.entry.work.now at before.level before.side }
{
    let n = usize::from(whole_alternative(t.work, at, t.width).attributes);
    let a = at + 14 + t.width.bytes;
    let f = annotations(t.work, a, n, t.width, ids);
    match f.precedence {
        None => sided(t, a, n, f.assoc, before),
        Some(i) => {
            let level = read_level(nth_value(t, a, n, i)).ok_or(Question::Level)?;
            let grade = Graded {
                level,
                side: Assoc::FullyAssoc,
            };
            sided(t, a, n, f.assoc, grade)
        }
    }
}

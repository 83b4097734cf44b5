// The item of a group that was taken off the pile: question 19, and its symbols as one alternative.
ghost use Rattle.std.specs.Prelude.{◌≡◌};
ghost use Rattle.appending.specs.Built.{number_of};
ghost use Rattle.macro_expand.specs.Expand.{SomePopped, IsGroup, ExpandsExpr};
ghost use Rattle.macro_expand.specs.Group.{group_text, SomeGroup, PutsGroup};

use crate::begin::begin;
use crate::norm_util::analyze_expr;
use appending::built::BuiltIn;
use appending::symbols::put_symbols;
use appending::{Appended, Round};
use octets::numbers::u16_at;
use parse_tree::refusal::{Question, Refusal};

// The built-in text of the action, where some of k symbols are chosen.
fn group_action(chosen: usize, k: usize) -> BuiltIn
    ensures { number_of result ≡ group_text chosen k }
{
    match (chosen, k) {
        (0, 1) | (1, _) => BuiltIn::Chosen,
        _ => BuiltIn::All,
    }
}

// The group at q, of m symbols, with a built-in text.
fn put_group(
    tape: &[u8],
    work: &mut [u8],
    round: &Round,
    q: usize,
    text: BuiltIn,
    m: u16,
    v: Appended,
) -> Appended
    requires { SomeGroup tape.now work.old round.now.g round.now.n round.now.lim q v m }
    ensures { PutsGroup tape.now work.old round.now.g round.now.n round.now.lim q v (number_of text) result work.new }
{
    let b = begin(tape, work, round, q, 1, 1, text, m, v);
    let x = put_symbols(tape, work, round, q + 11, usize::from(m), b.out);
    x.out
}

// The group at q.
pub fn expand_expr_symbol(
    tape: &[u8],
    work: &mut [u8],
    round: &Round,
    q: usize,
    v: Appended,
) -> Result<Appended, Refusal>
    requires { SomePopped IsGroup tape.now work.old round.now.g round.now.n round.now.lim q v }
    ensures { ExpandsExpr tape.now work.old round.now.g round.now.n round.now.lim q v result work.new }
{
    let at = round.g.from + q;
    let m = u16_at(work, at + 9);
    let k = usize::from(m);
    let Some(chosen) = analyze_expr(tape, work, &round.g, q + 11, k) else {
        return Err(Question::Group.of_command(work, at));
    };
    let text = group_action(chosen, k);
    Ok(put_group(tape, work, round, q, text, m, v))
}

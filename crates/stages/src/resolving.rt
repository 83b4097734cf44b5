// Questions 2 to 13 of one tape: its items are copied to work behind the list of their places, and resolved there.
ghost use Rattle.std.specs.Prelude.{true, ◌*◌, ◌≤◌, length};
ghost use Rattle.validate.specs.Whole.{Valid};
ghost use Rattle.stages.specs.Stages.{TapeResolves};
ghost use Rattle.stages.specs.Passes.{resolving_stage, resolving_follows};

use crate::Resolved;
use crate::pass::Pass;
use octets::numbers::Width;
use octets::runs::copy;
use output::handing::hand_over;
use parse_tree::refusal::Refusal;
use resolve::Grammar;
use resolve::whole::resolve;
use validate::Validated;
use validate::entry::validate;
use validate::regions::layout;

// A tape that was validated.
fn resolve_valid(tape: &[u8], work: &mut [u8], v: Validated) -> Result<Resolved, Refusal>
    requires { Valid true 2 tape.now work.old v.atoms v.at v.items × (8 * length tape.now ≤ length work.old) }
    ensures { TapeResolves tape.now result work.new }
{
    let size = tape.len() - v.at;
    let g = layout(size);
    copy(tape, v.at, tape.len(), work, g.items);
    let m = v.atoms.texts;
    let t = Grammar {
        at: g.items,
        end: g.items + size,
        list: g.list,
        count: v.items,
        width: v.atoms.width,
    };
    resolve(work, m, t)?;
    Ok(Resolved {
        texts: m,
        grammar: t,
        at: v.at,
    })
}

// Work has eight bytes for each of the tape's.
pub fn resolve_tape(tape: &[u8], work: &mut [u8]) -> Result<Resolved, Refusal>
    requires { 8 * length tape.now ≤ length work.old }
    ensures { TapeResolves tape.now result work.new }
{
    let v = validate(tape, work, Width { bytes: 2 }, true)?;
    resolve_valid(tape, work, v)
}

// Resolving.
#[derive(Clone, Copy)]
pub struct Resolving;

impl Pass for Resolving {
    ghost stage = { resolving_stage };

    ghost follows = { resolving_follows };

    fn items(
        self,
        tape: &[u8],
        output: &mut [u8],
        work: &mut [u8],
        r: Resolved,
    ) -> Result<usize, Refusal> {
        hand_over(tape, r.at, work, r.grammar.at, output);
        Ok(tape.len())
    }
}

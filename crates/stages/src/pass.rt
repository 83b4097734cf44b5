// A pass over a tape: what all passes do alike, around what each does to a grammar with items.
ghost use Rattle.std.specs.Prelude.{List, ℕ, ◌+◌, ◌*◌, ◌≤◌, ◌<◌, length};
ghost use Rattle.parse_tree.specs.Plain.Tree.{Stage};
ghost use Rattle.passes.specs.Outcome.{Outcome};
ghost use Rattle.output.specs.Working.Handing.{Staged};
ghost use Rattle.stages.specs.Follows.{Follows};
ghost use Rattle.stages.specs.Levelling.{SomeAdmitted};

use crate::Resolved;
use crate::resolving::resolve_tape;
use output::handing::hand_over;
use output::room::judge;
use parse_tree::refusal::Refusal;

// A pass, or passes one behind another, of a tape.
pub trait Pass {
    // The stage that it leaves of a tape, for an output of so many bytes.
    ghost stage: { Self → List ℕ → ℕ → Outcome Stage };

    // It comes behind resolving, and a grammar without items stays as it is.
    ghost follows: { (pass : Self) → Follows (stage pass) };

    // A grammar with items whose resolved stage is admitted.
    fn items(
        self,
        tape: &[u8],
        output: &mut [u8],
        work: &mut [u8],
        r: Resolved,
    ) -> Result<usize, Refusal>
        requires { (0 < r.grammar.count) × SomeAdmitted tape.now (length output.old) r.texts r.grammar r.at work.old }
        ensures { Staged (stage self tape.now (length output.old)) output.old result output.new };
}

// A pass of a tape: 20 and 21 of the resolved stage, then the pass. Work is long enough.
// A grammar without items is handed over as it is, since work may be too short for the room of levels and macros.
pub fn run<P: Pass + Copy>(
    pass: P,
    tape: &[u8],
    output: &mut [u8],
    work: &mut [u8],
) -> Result<usize, Refusal>
    requires { 8 * (length tape.now + length output.old) ≤ length work.old }
    ensures { Staged (P.stage pass tape.now (length output.old)) output.old result output.new }
{
    let r = resolve_tape(tape, work)?;
    judge(r.texts.count, tape.len(), output.len())?;
    if r.grammar.count == 0 {
        hand_over(tape, r.at, work, r.grammar.at, output);
        return Ok(tape.len());
    }
    pass.items(tape, output, work, r)
}

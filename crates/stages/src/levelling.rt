// Questions 14 to 16 of a tape whose grammar stands in work resolved, and 20 and 21 of its levels, which are written behind the tape's share of work.
ghost use Rattle.std.specs.Prelude.{◌<◌};
ghost use Rattle.stages.specs.Levelling.{SomeAdmitted, LevelsTo};
ghost use Rattle.stages.specs.Passes.{levelling_stage, levelling_follows};

use crate::Resolved;
use crate::pass::Pass;
use levels::fresh::count_bytes;
use levels::whole::expand_precedence;
use levels::{Room, Written};
use output::handing::hand_over_levels;
use output::room::{judge_levels, levels_room};
use parse_tree::refusal::Refusal;

// Levels that were written, and how many bytes their stage has.
#[derive(Clone, Copy)]
pub struct Levelled {
    pub room: Room,
    pub written: Written,
    pub size: usize,
}

// The levels of a grammar with items, for an output of so many bytes.
pub fn level(tape: &[u8], work: &mut [u8], r: Resolved, output: usize) -> Result<Levelled, Refusal>
    requires { (0 < r.grammar.count) × SomeAdmitted tape.now output r.texts r.grammar r.at work.old }
    ensures { LevelsTo tape.now output r.texts r.at result work.new }
{
    let room = levels_room(tape.len(), tape.len() - r.at, output);
    let written = expand_precedence(tape, work, r.texts, r.grammar, room)?;
    let bytes = count_bytes(tape, work, r.texts, written.count).ok();
    let size = judge_levels(written, room, r.at, bytes, output)?;
    Ok(Levelled {
        room,
        written,
        size,
    })
}

// Resolving and precedence levels.
#[derive(Clone, Copy)]
pub struct Levelling;

impl Pass for Levelling {
    ghost stage = { levelling_stage };

    ghost follows = { levelling_follows };

    fn items(
        self,
        tape: &[u8],
        output: &mut [u8],
        work: &mut [u8],
        r: Resolved,
    ) -> Result<usize, Refusal> {
        let l = level(tape, work, r, output.len())?;
        hand_over_levels(tape, r.at, work, r.texts, l.room, l.written, output);
        Ok(l.size)
    }
}

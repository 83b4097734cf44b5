// All rounds: one after another, as many as the limit allows, and the last.
ghost use Rattle.rounds.specs.Round.{SomeRound, AllRounds};

use crate::round::{last_round, round};
use crate::{Standing, State};
use parse_tree::refusal::Refusal;
use std::ops::ControlFlow;

pub fn rounds(
    tape: &[u8],
    work: &mut [u8],
    mut at: Standing,
    limit: usize,
) -> Result<State, Refusal>
    requires { SomeRound tape.now work.old at.room at.t at.z }
    ensures { AllRounds tape.now work.old at.room at.t limit at.z result work.new }
{
    // The rounds are counted in `at` itself: a range would count beside at.z.expander.round, and the proof would keep the two equal.
    while at.z.expander.round < limit {
        match round(tape, work, at)? {
            ControlFlow::Break(y) => return Ok(y),
            ControlFlow::Continue(y) => at = Standing { z: y, ..at },
        }
    }
    last_round(tape, work, at)
}

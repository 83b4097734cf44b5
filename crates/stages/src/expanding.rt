// Questions 17 to 21 of a tape whose grammar stands in work resolved: the rounds of macro expansion behind the tape's share of work.
ghost use Rattle.std.specs.Prelude.{◌≡◌, ◌+◌, ◌*◌, ◌<◌, length};
ghost use Rattle.stages.specs.Expanding.{macros_room, SomeFirst, FirstRounds, SomeRun, RunsTo};
ghost use Rattle.stages.specs.Passes.{expanding_stage, expanding_follows};

use crate::Resolved;
use crate::pass::Pass;
use output::expanded::hand_over_macros;
use parse_tree::refusal::Refusal;
use rounds::define::define;
use rounds::steps::start;
use rounds::whole::rounds;
use rounds::{Room, Standing, State};

// Where macros stand in work, for a tape of so many bytes of which `at` are its atoms':
// behind the tape's share of work a round's tables, its items twice, and what is written.
pub fn macros_room(tape: usize, at: usize, output: usize) -> Room
    requires { 8 * (tape + output) < 9223372036854775808 }
    ensures { result ≡ macros_room tape at output }
{
    let rest = 2 * (output / 9);
    let x = 8 * tape + (5 * output - rest);
    let y = x + 2 * output;
    Room {
        first: at,
        cap: output,
        x,
        y,
        end: y + (output + rest),
    }
}

// The rounds of a grammar whose stage is admitted, its new texts standing from `low` on: first its macros are told in the cells of their names.
fn expand_rounds(
    tape: &[u8],
    work: &mut [u8],
    r: Resolved,
    room: Room,
    low: usize,
    limit: usize,
) -> Result<State, Refusal>
    requires { SomeFirst tape.now work.old r room low }
    ensures { FirstRounds tape.now work.old r room low limit result work.new }
{
    let t = r.grammar;
    define(tape, work, r.texts, t);
    let z = State {
        expander: start(t.count),
        m: r.texts,
        from: t.at,
        end: t.end,
        done: room.y,
        low,
    };
    rounds(tape, work, Standing { room, t, z }, limit)
}

// From the first round to the output: the stage's texts are the tape's, n of them, which stand before `r.at`, and the new ones from `low` on.
pub fn run_rounds(
    tape: &[u8],
    output: &mut [u8],
    work: &mut [u8],
    r: Resolved,
    n: usize,
    room: Room,
    low: usize,
    limit: usize,
) -> Result<usize, Refusal>
    requires { SomeRun tape.now work.old (length output.old) r n room low }
    ensures { RunsTo tape.now work.old r n room low limit output.old result output.new }
{
    let z = expand_rounds(tape, work, r, room, low, limit)?;
    Ok(hand_over_macros(tape, r.at, work, z.m, n, room.y, z.done, output))
}

// Resolving and macro expansion, within so many rounds.
#[derive(Clone, Copy)]
pub struct Expanding {
    pub limit: usize,
}

impl Pass for Expanding {
    ghost stage = { expanding_stage };

    ghost follows = { expanding_follows };

    fn items(
        self,
        tape: &[u8],
        output: &mut [u8],
        work: &mut [u8],
        r: Resolved,
    ) -> Result<usize, Refusal> {
        let room = macros_room(tape.len(), r.at, output.len());
        run_rounds(
            tape,
            output,
            work,
            r,
            r.texts.count,
            room,
            room.end,
            self.limit,
        )
    }
}

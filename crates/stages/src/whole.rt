// Questions 14 to 16, and 20 and 21 of the levels, then 5 to 13 again, then 17 to 21, of a tape whose grammar stands in work resolved: the levels' names settled, the levels resolved again,
// then the rounds of macro expansion.
ghost use Rattle.std.specs.Prelude.{length};
ghost use Rattle.output.specs.Working.Handing.{Staged};
ghost use Rattle.stages.specs.Whole.{whole_of, SomeSettled};
ghost use Rattle.stages.specs.Passes.{whole_stage, whole_follows};

use crate::Resolved;
use crate::expanding::{macros_room, run_rounds};
use crate::levelling::{Levelled, level};
use crate::pass::Pass;
use again::whole::resolve_again;
use levels::settle::settle_names;
use parse_tree::refusal::Refusal;
use rounds::Room;
use texts::Map;

// Levels whose names are settled, from `low` on: their items resolved again and expanded. What was resolved first is read no more, so the list of
// the levels' places takes the front of work.
fn expand_settled(
    tape: &[u8],
    output: &mut [u8],
    work: &mut [u8],
    r: Resolved,
    l: Levelled,
    room: Room,
    low: usize,
    limit: usize,
) -> Result<usize, Refusal>
    requires { SomeSettled tape.now (length output.old) r.texts r.at l.room l.written room low work.old }
    ensures { Staged (whole_of tape.now limit (length output.old)) output.old result output.new }
{
    let texts = Map {
        count: l.written.count,
        ..r.texts
    };
    let grammar = resolve_again(tape, work, texts, 0, l.room.at, l.written.to)?;
    let again = Resolved {
        texts,
        grammar,
        at: r.at,
    };
    run_rounds(tape, output, work, again, r.texts.count, room, low, limit)
}

// Resolving, precedence levels and macro expansion, within so many rounds.
#[derive(Clone, Copy)]
pub struct Whole {
    pub limit: usize,
}

impl Pass for Whole {
    ghost stage = { whole_stage };

    ghost follows = { whole_follows };

    fn items(
        self,
        tape: &[u8],
        output: &mut [u8],
        work: &mut [u8],
        r: Resolved,
    ) -> Result<usize, Refusal> {
        let l = level(tape, work, r, output.len())?;
        let room = macros_room(tape.len(), r.at, output.len());
        let low = settle_names(tape, work, r.texts, l.written.count, room.end);
        expand_settled(tape, output, work, r, l, room, low, self.limit)
    }
}

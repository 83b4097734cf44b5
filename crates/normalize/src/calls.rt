// The calls as Rattle has them: each for every tape, output and work.
ghost use Rattle.std.specs.Prelude.{◌≡◌, true, ◌+◌, ◌*◌, ◌≤◌, ◌<◌, length, MatchResult};
ghost use Rattle.parse_tree.specs.Working.Refusals.{number_of, refusal_at};
ghost use Rattle.parse_tree.specs.declared.refusal.Question.{Question};
ghost use Rattle.passes.specs.Calls.{validate_call, resolve_call, levels_call, macros_call, whole};
ghost use Rattle.output.specs.Plain.Answers.{Called, Checked};
ghost use Rattle.normalize.specs.Calls.{in_room};

use output::room::enough;
use parse_tree::refusal::{Question, Refusal};
use stages::clearing::clear;
use stages::expanding::Expanding;
use stages::levelling::Levelling;
use stages::pass::{Pass, run};
use stages::resolving::Resolving;
use stages::validating::validate_tape;
use stages::whole::Whole;

// Question 1, of the lengths of a tape, an output and work.
fn room(tape: usize, output: usize, work: usize) -> Result<(), Refusal>
    ensures { MatchResult result (λ _. 8 * (tape + output) ≤ work) (λ why. (why ≡ refusal_at (number_of Question.Room) 0) × (work < 8 * (tape + output))) }
{
    if !enough(tape, output, work) {
        return Err(Question::Room.at(0));
    }
    Ok(())
}

// Validating alone: questions 1 to 4, with no output. A tape that is read is the tape of its tree, so a yes has its length.
pub fn validate(tape: &[u8], work: &mut [u8]) -> Result<usize, Refusal>
    ensures { Checked (validate_call true 2 tape.now 0 (length work.old)) tape.now work.old result work.new }
{
    room(tape.len(), 0, work.len())?;
    validate_tape(tape, work)
}

// A pass of a tape. Work that is too short (1) stays as it was; any other is zero afterwards.
fn call<P: Pass + Copy>(
    pass: P,
    tape: &[u8],
    output: &mut [u8],
    work: &mut [u8],
) -> Result<usize, Refusal>
    ensures { Called (in_room tape.now (length output.old) (length work.old) (P.stage pass tape.now (length output.old))) tape.now output.old work.old result output.new work.new }
{
    room(tape.len(), output.len(), work.len())?;
    let r = run(pass, tape, output, work);
    clear(work);
    r
}

// Resolving alone: questions 1 to 13, 20 and 21.
pub fn resolve(tape: &[u8], output: &mut [u8], work: &mut [u8]) -> Result<usize, Refusal>
    ensures { Called (resolve_call true 2 tape.now (length output.old) (length work.old)) tape.now output.old work.old result output.new work.new }
{
    call(Resolving, tape, output, work)
}

// Resolving and precedence levels: questions 1 to 16, 20 and 21.
pub fn levels(tape: &[u8], output: &mut [u8], work: &mut [u8]) -> Result<usize, Refusal>
    ensures { Called (levels_call true 2 tape.now (length output.old) (length work.old)) tape.now output.old work.old result output.new work.new }
{
    call(Levelling, tape, output, work)
}

// Resolving and macro expansion, within so many rounds: questions 1 to 13 and 17 to 21.
pub fn macros(
    tape: &[u8],
    limit: usize,
    output: &mut [u8],
    work: &mut [u8],
) -> Result<usize, Refusal>
    ensures { Called (macros_call true 2 tape.now limit (length output.old) (length work.old)) tape.now output.old work.old result output.new work.new }
{
    call(Expanding { limit }, tape, output, work)
}

// Resolving, precedence levels and macro expansion, within so many rounds: all questions.
pub fn whole(
    tape: &[u8],
    limit: usize,
    output: &mut [u8],
    work: &mut [u8],
) -> Result<usize, Refusal>
    ensures { Called (whole true 2 tape.now limit (length output.old) (length work.old)) tape.now output.old work.old result output.new work.new }
{
    call(Whole { limit }, tape, output, work)
}

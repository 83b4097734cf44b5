// Questions 2 to 4 of one tape, for a call that writes nothing.
ghost use Rattle.std.specs.Prelude.{◌*◌, ◌≤◌, length};
ghost use Rattle.stages.specs.Stages.{Judged};

use crate::clearing::clear;
use octets::numbers::Width;
use parse_tree::refusal::Refusal;
use validate::entry::validate;

// Work is long enough, and is cleared.
pub fn validate_tape(tape: &[u8], work: &mut [u8]) -> Result<usize, Refusal>
    requires { 8 * length tape.now ≤ length work.old }
    ensures { Judged tape.now work.old result work.new }
{
    let v = validate(tape, work, Width { bytes: 2 }, true);
    clear(work);
    v?;
    Ok(tape.len())
}

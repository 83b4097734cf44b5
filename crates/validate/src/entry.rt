// A tape as a whole.
ghost use Rattle.std.specs.Prelude.{◌*◌, ◌≤◌, length};
ghost use Rattle.validate.specs.Whole.{Fronts, Validates};

use crate::front::{atoms, front};
use crate::items::items;
use crate::{Atoms, Validated};
use octets::numbers::Width;
use parse_tree::refusal::Refusal;

// The items behind the atoms, whose table stands.
fn validate_items(tape: &[u8], work: &mut [u8], m: Atoms, at: usize) -> Result<Validated, Refusal>
    requires { Fronts tape.now work.old m at }
    ensures { Validates m.four m.width.bytes tape.now result work.new }
{
    let n = items(tape, work, m, at)?;
    Ok(Validated {
        atoms: m,
        at,
        items: n,
    })
}

// The tape's atoms and items; work is long enough for the table. An atom's number has `width` bytes; `four` says whether question 4 is asked.
pub fn validate(
    tape: &[u8],
    work: &mut [u8],
    width: Width,
    four: bool,
) -> Result<Validated, Refusal>
    requires { 8 * length tape.now ≤ length work.old }
    ensures { Validates four width.bytes tape.now result work.new }
{
    let f = front(tape);
    let t = atoms(tape, work, f.at, f.count)?;
    let m = Atoms {
        texts: t,
        width,
        four,
    };
    validate_items(tape, work, m, f.at)
}

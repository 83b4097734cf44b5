// A tree handed over to the output.
ghost use Rattle.std.specs.Prelude.{◌≡◌, ◌+◌, ◌-◌, ◌≤◌, length};
ghost use Rattle.output.specs.Working.Handing.{handed, HandsLevels, handed_levels};

use levels::fresh::put_names;
use levels::{Room, Written};
use octets::runs::copy;
use texts::Map;

// The tree goes to the front of the output: its atoms as they stand on the tape, its items as they stand in work from a on.
pub fn hand_over(tape: &[u8], at: usize, work: &[u8], a: usize, output: &mut [u8])
    requires { (at ≤ length tape.now) × (a + (length tape.now - at) ≤ length work.now) × (length tape.now ≤ length output.old) }
    ensures { output.new ≡ handed at tape.now a work.now output.old }
{
    copy(tape, 0, at, output, 0);
    copy(work, a, a + (tape.len() - at), output, at);
}

// The same with the names of levels behind the tape's atoms.
pub fn hand_over_levels(
    tape: &[u8],
    at: usize,
    work: &[u8],
    m: Map,
    room: Room,
    v: Written,
    output: &mut [u8],
)
    requires { HandsLevels tape.now at work.now m room v (length output.old) }
    ensures { output.new ≡ handed_levels tape.now at work.now m room v output.old }
{
    copy(tape, 0, at, output, 0);
    let q = put_names(tape, work, m, v.count, output, at);
    copy(work, room.at, v.to, output, q);
}

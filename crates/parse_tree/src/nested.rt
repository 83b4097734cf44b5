// How many symbols stand straight inside one, as its command says.
ghost use Rattle.std.specs.Prelude.{◌≡◌, ◌+◌, ◌≤◌, ◌<◌, length};
ghost use Rattle.parse_tree.specs.Working.Nodes.{long_of};
ghost use Rattle.parse_tree.specs.Working.Nested.{inside_by, inside_at};

use octets::numbers::{Width, u16_at};

// How many they are in the symbol of code c at a place: its reader has the code at hand.
pub fn inside(tape: &[u8], width: Width, at: usize, c: u8) -> usize
    requires { at + long_of width.bytes c ≤ length tape.now }
    ensures { result ≡ inside_by width.bytes tape.now at c }
{
    match c {
        0..=36 => 0,
        37 => usize::from(tape[at + 9 + width.bytes]),
        38..=40 => 1,
        41 => usize::from(u16_at(tape, at + 9)),
        _ => 0,
    }
}

// The same by the place alone. The commands of other codes, which hold none, may be longer than what is asked here.
pub fn inside_at(tape: &[u8], at: usize, width: Width) -> usize
    requires { at + (10 + width.bytes) ≤ length tape.now }
    ensures { (result ≡ inside_at width.bytes tape.now at) × (result < 65536) }
{
    let c = tape[at];
    match c {
        37..=41 => inside(tape, width, at, c),
        _ => 0,
    }
}

// What the texts of the attributes `precedence` and `assoc` say, and a level written in decimal.
ghost use Rattle.std.specs.Prelude.{◌≡◌, ◌+◌, ◌≤◌, length};
ghost use Rattle.grades.specs.Grade.{level_said, assoc_said, level_digits, PutsDecimal};

use crate::Assoc;
use crate::decimal::{number_size, put_digits};

// A `u32` as Rust parses it: perhaps a plus, then one digit or more.
pub fn read_level(t: &[u8]) -> Option<u32>
    ensures { result ≡ level_said t.now }
{
    str::from_utf8(t).ok()?.parse().ok()
}

// The side that a text names.
#[tactic(auto, using(crate::proofs::GradeCode::siding))]
pub fn read_assoc(t: &[u8]) -> Option<Assoc>
    ensures { result ≡ assoc_said t.now }
{
    match t {
        b"all" => Some(Assoc::FullyAssoc),
        b"none" => Some(Assoc::NonAssoc),
        b"left" => Some(Assoc::Left),
        b"right" => Some(Assoc::Right),
        _ => None,
    }
}

// How many digits a level has.
pub fn decimal_size(v: u32) -> usize
    ensures { (result ≡ length (level_digits v)) × (1 ≤ result) × (result ≤ 10) }
{
    number_size(v as usize)
}

// A level in plain decimal; says the place behind.
pub fn put_decimal(out: &mut [u8], to: usize, v: u32) -> usize
    requires { to + length (level_digits v) ≤ length out.old }
    ensures { PutsDecimal out.old to v result out.new }
{
    put_digits(out, to, v as usize)
}

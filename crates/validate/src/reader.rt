// A tape whose atoms stand in a table: what reads its commands.
ghost use Rattle.validate.specs.Steps.{Ready};

use crate::Atoms;

#[derive(Clone, Copy)]
pub struct Reader<'a> {
    pub tape: &'a [u8],
    pub work: &'a [u8],
    pub atoms: Atoms,
    pub ghost ready: { Ready tape.now work.now atoms },
}

impl Reader<'_> {
    ghost use Rattle.std.specs.Prelude.{◌-◌, ◌<◌, length, MatchOption};
    ghost use Rattle.validate.specs.Quick.{CodeAt};

    // The code of the command at a place; None where fewer than n bytes are left.
    #[inline]
    pub fn code_at(&self, at: usize, n: usize) -> Option<u8>
        requires { 0 < n }
        ensures { MatchOption result (length self.now.tape.now - at < n) (CodeAt self.now.tape.now at n) }
    {
        if self.tape.len().saturating_sub(at) < n {
            return None;
        }
        Some(self.tape[at])
    }
}

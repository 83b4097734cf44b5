// The texts that can be read, of a tape and of work, and how many bytes their numbers have in work's commands.
ghost use Rattle.std.specs.Prelude.{◌≡◌, [], get_or};
ghost use Rattle.texts.specs.Table.{texts};
ghost use Rattle.grades.specs.Grading.{Worded};

use octets::numbers::Width;
use texts::Map;
use texts::fields::text_mark;
use texts::text::text_at;

#[derive(Clone, Copy)]
pub struct Words<'a> {
    pub tape: &'a [u8],
    pub work: &'a [u8],
    pub m: Map,
    pub width: Width,
    pub ghost worded: { Worded tape.now work.now m },
}

impl<'a> Words<'a> {
    // The text of number k; empty where there is none.
    pub fn text(self, k: usize) -> &'a [u8]
        ensures { result.now ≡ get_or (texts self.entry.tape.now self.entry.work.now self.entry.m) k [] }
    {
        if k < self.m.count {
            text_at(self.tape, self.work, text_mark(self.work, self.m.base, k))
        } else {
            &self.tape[0..0]
        }
    }
}

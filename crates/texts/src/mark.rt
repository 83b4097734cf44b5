// The mark of a text: below four times the tape's length it is four times the place of the text's command on the tape, and the text's class; from there on
// a place in work, less four times that length.
ghost use Rattle.std.specs.Prelude.{◌≡◌, ◌+◌, ◌-◌, ◌*◌, ◌/◌, ◌%◌, ◌^◌, ◌≤◌, ◌<◌, length};
ghost use Rattle.texts.specs.Classes.{class_number};
ghost use Rattle.texts.specs.Marks.{stand_of};

use crate::class::TextClass;

#[derive(Clone, Copy)]
pub struct TextMark {
    pub number: usize,
}

// Where the command of a text stands.
#[derive(Clone, Copy)]
pub enum Stand {
    Tape(usize),
    Work(usize),
}

impl TextMark {
    // Of a text on the tape, and its class.
    #[tactic(auto, using(crate::proofs::TextClassLaws::tag_number))]
    pub fn on_tape(at: usize, class: TextClass) -> TextMark
        requires { 4 * at + class_number class < 2 ^ 64 }
        ensures { result.number ≡ 4 * at + class_number class }
    {
        TextMark {
            number: 4 * at + class as usize,
        }
    }

    // Of a text in work.
    pub fn in_work(tape: &[u8], at: usize) -> TextMark
        requires { 4 * length tape.now ≤ at }
        ensures { result.number ≡ at - 4 * length tape.now }
    {
        TextMark {
            number: at - 4 * tape.len(),
        }
    }

    #[tactic(auto, unfolding(crate::specs::Classes::class_number))]
    pub fn class(self) -> TextClass
        ensures { class_number result ≡ self.number % 4 }
    {
        match self.number % 4 {
            0 => TextClass::Other,
            1 => TextClass::Ascii,
            2 => TextClass::Literal,
            _ => TextClass::Name,
        }
    }

    // Where the command stands, of a text on the tape.
    pub fn tape_place(self) -> usize
        ensures { result ≡ self.number / 4 }
    {
        self.number / 4
    }

    // Where it stands.
    #[tactic(auto, using(crate::proofs::MarkLaws::stands_tape, crate::proofs::MarkLaws::stands_work))]
    pub fn stand(self, tape: &[u8]) -> Stand
        requires { 4 * length tape.now ≤ self.number → self.number + 4 * length tape.now < 2 ^ 64 }
        ensures { result ≡ stand_of (length tape.now) self.number }
    {
        let at = self.tape_place();
        if at < tape.len() {
            Stand::Tape(at)
        } else {
            Stand::Work(self.number + 4 * tape.len())
        }
    }
}

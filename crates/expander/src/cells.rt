// What is known of a text while macros are expanded, in the cell of its record.
ghost use Rattle.std.specs.Prelude.{◌≡◌, ◌+◌, ◌-◌, ◌*◌, ◌%◌, ◌≤◌, ◌<◌, leb, length};
ghost use Rattle.texts.specs.Fields.{cell_at};

use texts::fields::cell;

// A number, as records lie in fixed memory: the highest bit says whether a symbol that prints so was pushed, the rest is the index of the macro's definition that the text names, and one.
#[derive(Clone, Copy)]
pub struct TextCell(pub u32);

impl TextCell {
    // Of the name of the macro that item i defines.
    pub fn of_macro(i: usize) -> TextCell
        requires { i < 2147483647 }
        ensures { result.0 ≡ i + 1 }
    {
        TextCell((i + 1) as u32)
    }

    pub fn macro_index(self) -> usize
        requires { 1 ≤ self.0 % 2147483648 }
        ensures { result ≡ self.0 % 2147483648 - 1 }
    {
        self.0 as usize % 2147483648 - 1
    }

    pub fn is_pushed(self) -> bool
        ensures { result ≡ leb 2147483648 self.0 }
    {
        2147483648 <= self.0
    }

    pub fn pushed(self) -> TextCell
        ensures { result.0 ≡ self.0 % 2147483648 + 2147483648 }
    {
        TextCell(self.0 % 2147483648 + 2147483648)
    }
}

// That of text k of the records from base on.
pub fn text_cell(work: &[u8], base: usize, k: usize) -> TextCell
    requires { base + 24 * k + 24 ≤ length work.now }
    ensures { result.0 ≡ cell_at work.now base k }
{
    TextCell(cell(work, base, k))
}

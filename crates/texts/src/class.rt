// The class of a text, and of a byte.
ghost use Rattle.std.specs.Prelude.{◌≡◌, ◌≤◌, ◌||◌, length};
ghost use Rattle.octets.specs.Plain.Runs.{part, same_as};
ghost use Rattle.parse_tree.specs.Plain.Texts.{starts_name, mut_text, error_text};
ghost use Rattle.texts.specs.Classes.{text_class, byte_class, least, class_number};

use TextClass::{Ascii, Literal, Name, Other};

// The class of a text: a name, another text of bytes 20 to 7e, another of bytes 00 to 7f, any other. The least of its bytes' says which, but for a name (`class_by`).
// Its number, from 0 on, stands in two bits of the text's mark. No `= 0` here: the derived order would look each number up in a table.
#[derive(Clone, Copy, PartialEq, Eq, PartialOrd, Ord)]
pub enum TextClass {
    Other,
    Ascii,
    Literal,
    Name,
}

#[tactic(auto, using(std::proofs::lemmas::Bool::Decides::nat_tests), unfolding(parse_tree::specs::Plain::Texts::starts_name))]
fn starts_name(b: u8) -> bool
    ensures { result ≡ starts_name b }
{
    matches!(b, b'A'..=b'Z' | b'_' | b'a'..=b'z')
}

// The class of each byte. No `const`: it would be written to the stack anew for each byte of a text.
static CLASSES: [TextClass; 256] = [
    // 00 to 1f
    Ascii, Ascii, Ascii, Ascii, Ascii, Ascii, Ascii, Ascii, Ascii, Ascii, Ascii, Ascii, Ascii,
    Ascii, Ascii, Ascii, Ascii, Ascii, Ascii, Ascii, Ascii, Ascii, Ascii, Ascii, Ascii, Ascii,
    Ascii, Ascii, Ascii, Ascii, Ascii, Ascii,
    // 20 to 2f
    Literal, Literal, Literal, Literal, Literal, Literal, Literal, Literal, Literal, Literal,
    Literal, Literal, Literal, Literal, Literal, Literal,
    // digits
    Name, Name, Name, Name, Name, Name, Name, Name, Name, Name,
    // 3a to 40
    Literal, Literal, Literal, Literal, Literal, Literal, Literal,
    // capitals
    Name, Name, Name, Name, Name, Name, Name, Name, Name, Name, Name, Name, Name, Name, Name, Name,
    Name, Name, Name, Name, Name, Name, Name, Name, Name, Name,
    // 5b to 60, and among them the underscore
    Literal, Literal, Literal, Literal, Name, Literal,
    // small letters
    Name, Name, Name, Name, Name, Name, Name, Name, Name, Name, Name, Name, Name, Name, Name, Name,
    Name, Name, Name, Name, Name, Name, Name, Name, Name, Name,
    // 7b to 7e, and 7f
    Literal, Literal, Literal, Literal, Ascii,
    // 80 to ff
    Other, Other, Other, Other, Other, Other, Other, Other, Other, Other, Other, Other, Other,
    Other, Other, Other, Other, Other, Other, Other, Other, Other, Other, Other, Other, Other,
    Other, Other, Other, Other, Other, Other, Other, Other, Other, Other, Other, Other, Other,
    Other, Other, Other, Other, Other, Other, Other, Other, Other, Other, Other, Other, Other,
    Other, Other, Other, Other, Other, Other, Other, Other, Other, Other, Other, Other, Other,
    Other, Other, Other, Other, Other, Other, Other, Other, Other, Other, Other, Other, Other,
    Other, Other, Other, Other, Other, Other, Other, Other, Other, Other, Other, Other, Other,
    Other, Other, Other, Other, Other, Other, Other, Other, Other, Other, Other, Other, Other,
    Other, Other, Other, Other, Other, Other, Other, Other, Other, Other, Other, Other, Other,
    Other, Other, Other, Other, Other, Other, Other, Other, Other, Other, Other,
];

#[tactic(auto, using(crate::proofs::TextClassLaws::entry_class))]
pub fn byte_class(b: u8) -> TextClass
    ensures { class_number result ≡ byte_class b }
{
    CLASSES[b as usize]
}

// Whether a text is one of the two that are no names although they are spelled as such.
#[tactic(auto, using(crate::proofs::ClassByCode::reserving))]
fn is_reserved(t: &[u8]) -> bool
    ensures { result ≡ (same_as t.now mut_text || same_as t.now error_text) }
{
    matches!(t, b"mut" | b"error")
}

// The class of the bytes from a up to e, whose least class is m.
pub fn class_by(tape: &[u8], a: usize, e: usize, m: TextClass) -> TextClass
    requires { (a ≤ e) × (e ≤ length tape.now) × (class_number m ≡ least 3 (part a e tape.now)) }
    ensures { class_number result ≡ text_class (part a e tape.now) }
{
    if m < Name {
        m
    } else if e <= a || !starts_name(tape[a]) || is_reserved(&tape[a..e]) {
        Literal
    } else {
        Name
    }
}

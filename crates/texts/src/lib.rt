// The texts by number, over the tape and the new texts in work, and the table that finds a text by its bytes.
// A text is a record of 24 bytes in work: its mark (8), its hash (4), its link (4), the head of the bucket of this index (4), and a cell that
// is the caller's (4). Links and heads are a number and one, and 0 for none. A text's mark is a `TextMark`; what uses records for other things has marks of its own.
#![tactic(auto)]

pub mod chain;
pub mod class;
pub mod fields;
pub mod hash;
pub mod mark;
pub mod scan;
pub mod table;
pub mod text;

// Where the records stand, how many texts there are, and how many buckets.
// Tape and work go beside it, and what is known of them stands in the clauses: most functions write work, and a type that holds it would be built
// for one reading between two writes. Where functions only read and call one another there is one: `Words` (grades), `Reader` (validate).
// The tape is not in it: nine structs hold a Map, and seven of them would get its lifetime, where the clauses name tape and work together.
#[derive(Clone, Copy)]
pub struct Map {
    pub base: usize,
    pub count: usize,
    pub buckets: usize,
}

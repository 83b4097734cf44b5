// The calls: a tape, an output and a work buffer in; the answer, the tree in the output, and work at zero, or untouched where it is too short, out.
#![tactic(auto)]

pub mod calls;

// One command of a tape, as an enum; which command may stand where; how long a command is; how many symbols stand in it; why a tape is refused.
#![tactic(auto)]

pub mod nested;
pub mod node;
pub mod places;
pub mod refusal;
pub mod size;
pub mod syntax;

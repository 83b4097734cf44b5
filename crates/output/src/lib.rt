// What a call answers, and what it hands over: sizes asked, texts put, trees copied to the output.
#![tactic(auto)]

pub mod expanded;
pub mod handing;
pub mod putting;
pub mod room;

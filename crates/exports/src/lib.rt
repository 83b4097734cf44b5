// The archive: the calls for Rust and C. It is a crate of its own since no crate may depend on an archive.
#![tactic(auto)]

pub mod export;

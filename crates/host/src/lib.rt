//! What the command shares with the system: how it ends, what it reads, and what it writes.
#![tactic(auto)]

pub mod failure;
pub mod source;
pub mod written;

//! What the command makes of a file: lines of an upload, a sheet of one, and an upload of either.
#![tactic(auto)]

pub mod captured;
pub mod sheets;

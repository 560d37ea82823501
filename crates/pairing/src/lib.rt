//! Which entries of two uploads are the same, and whether the uploads are alike (docs/FORMAT.md, "The command's text", of `compare`).
#![tactic(auto)]

pub mod pairs;
pub mod pieces;
pub mod rows;
pub mod theorems;

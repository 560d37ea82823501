//! `type --json`: data types with their members in JSON (docs/FORMAT.md, "The command's text").
#![tactic(auto)]

pub mod json;
pub mod list;
pub mod theorems;

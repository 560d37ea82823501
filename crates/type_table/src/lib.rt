//! `type`: data types with their members in a table (docs/FORMAT.md, "The command's text").
#![tactic(auto)]

pub mod cells;
pub mod table;
pub mod theorems;

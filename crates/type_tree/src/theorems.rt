//! The theorems about data types and their members. Each is the contract of a function that does nothing, so that none goes unnoticed if its proof does.

ghost use Rattle.type_tree.specs.Levels.{LevelsMeant};
ghost use Rattle.type_tree.specs.Meaning.{MembersMeant};

/// The members of an entry are its sub-items, all of them and in their order, by the bytes of the upload.
pub fn members_meant()
    ensures { MembersMeant }
{}

/// An accepted data type has 16 levels at most, itself the first.
pub fn levels_meant()
    ensures { LevelsMeant }
{}

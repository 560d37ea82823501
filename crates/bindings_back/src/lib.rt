//! What was written is bound to (docs/FORMAT.md, "Binding" and "Fit records"). There is nothing to run.
#![tactic(auto)]

ghost use Rattle.bindings_back.specs.Written.{WrittenBound};

/// Of symbols and members that were written, the path that is a symbol's name, a dot and a member's name is bound to the symbol's group and offset and the member's offset behind it, with the
/// member's size and type, through the name indices of both uploads: where the symbol and its data type are the first of their names and the member is the first of its
/// name, and no symbol has the whole path as its name.
pub fn written_bound()
    ensures { WrittenBound }
{}

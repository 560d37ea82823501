//! The theorems (docs/FORMAT.md, "Binding"). Each is the contract of a function that does nothing, so that none goes unnoticed if its proof does.
#![tactic(auto)]

ghost use Rattle.bind.specs.Rig.{RigBound};
ghost use Rattle.bind.specs.Edges.{EdgesBound};
ghost use Rattle.bind.specs.Adding.{StepsAdd};
ghost use Rattle.bind.specs.Meaning.{FoundMeant, LimitsFirst, SymbolAlone};

/// Of a small controller, written byte by byte, each of its paths leads to the address that its numbers add up to, or is refused as it must be: members by their first name, through data types, in bits; elements in rows, in bounds; each fault of a path with its place.
pub fn rig_bound()
    ensures { RigBound }
{}

/// Of a second controller too: long paths, offsets and subscripts up to the last, sixteen data types one behind another and not seventeen, arrays of arrays, more than one flag, pointers.
pub fn edges_bound()
    ensures { EdgesBound }
{}

/// Through any slots a name is found at an entry that has it, or not at all; through a name index, as through all of its slots.
pub fn found_meant()
    ensures { FoundMeant }
{}

/// Symbols above the limit are refused first, then data types, then a path, whatever else is wrong.
pub fn limits_first()
    ensures { LimitsFirst }
{}

/// The path that is all of a symbol's name leads to the symbol's own numbers and type name, as the reader of symbols tells them, whatever bytes the name has.
pub fn symbol_alone()
    ensures { SymbolAlone }
{}

/// A member adds the offset that stands in the first sub-item of its name, letter by letter, in bytes or in bits, in which its size is then told, and is none that has no offset; an element adds as many rows as its number lies above the lower bound, which are fewer than there are; a data type that takes an entry's place adds nothing.
pub fn steps_add()
    ensures { StepsAdd }
{}

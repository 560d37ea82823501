//! What a path leads to (docs/FORMAT.md, "Binding"). Each theorem is the contract of a function that does nothing, so that none goes unnoticed if its proof does.
#![tactic(auto)]

ghost use Rattle.bindings_meant.specs.Cases.{AnyCase};
ghost use Rattle.bindings_meant.specs.Longest.{LongestMeant};
ghost use Rattle.bindings_meant.specs.Entries.{EntriesMeant};
ghost use Rattle.bindings_meant.specs.Nesting.{AddressWithin};
ghost use Rattle.bindings_meant.specs.Places.{PlacesMeant};
ghost use Rattle.bindings_meant.specs.Reaches.{BindingMeant};

/// Two paths that are the same letter by letter lead to the same address, or to the same refusal with the same numbers, wherever they lie: by any finder of symbols that answers names in any case alike, and so by the slots of any upload.
pub fn any_case()
    ensures { AnyCase }
{}

/// The symbol of a path is the one of the longest name with which the path begins, up to its end, a dot or an opening bracket: that one is found, and none else.
pub fn longest_meant()
    ensures { LongestMeant }
{}

/// Where each member ends no further than its parent, or than one element of an array, and each data type has the size of what it is the type of, or less, an address lies with all of its size within the symbol, bit by bit.
pub fn address_within()
    ensures { AddressWithin }
{}

/// A path has an address exactly where it is a symbol's name, the longest that it begins with, and parts that lead from that symbol to the address, member by member
/// and element by element, whose offsets add up: through the first accepted entry of each name where the slots are the name indices of the uploads, and else by
/// what is found for each name.
pub fn binding_meant()
    ensures { BindingMeant }
{}

/// What an entry tells on the way along a path, of a symbol, of a data type or of a member at any level, is what its reader tells where it is accepted; and the first of a
/// name is accepted, and each member of what is accepted.
pub fn entries_meant()
    ensures { EntriesMeant }
{}

/// The place that is told of a data type, and of a member at any level, is the one at which its bytes stand in the upload.
pub fn places_meant()
    ensures { PlacesMeant }
{}

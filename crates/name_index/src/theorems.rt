//! The theorems (docs/FORMAT.md, "Name index"). Each is the contract of a function that does nothing, so that none goes unnoticed if its proof does.
#![tactic(auto)]

ghost use Rattle.refusal.specs.declared.Mode.{Mode};
ghost use Rattle.name_index.specs.Meaning.{NameIndexMeant, SameHalved, SymbolsFound};
ghost use Rattle.name_index.specs.BranchMeaning.{NamedMeant, BranchMeant, BranchInIndex};

use named::Named;

/// An upload above the limit is refused by 5; within it one in which a step stands by 10; else too few slots by 6, with how many are needed and how many were lent; else the name index is built: the place of each step that gives a record, in the order of the names, and the only such list. A refusal leaves the slots as they were.
pub fn name_index_meant<'a, E: Named<'a>>()
    ensures { (mode : Mode) → NameIndexMeant E.places (E.read mode) }
{}

/// Through a name index that was built a name is found by halving as through the index of the upload.
pub fn same_halved<'a, E: Named<'a>>()
    ensures { (mode : Mode) → SameHalved E.places (E.read mode) E.name_of }
{}

/// A name is found exactly where an entry begins that is read by itself and has the name, letter by letter; so what halving answers through any slots is 5 above the limit, and within it 13, or one of the slots that has the name.
pub fn named_meant<'a, E: Named<'a>>()
    ensures { (mode : Mode) → NamedMeant E.places E.HEADER (E.read mode) E.length_of E.name_of }
{}

/// A branch that is asked through any slots is those at which an entry begins, read by itself, whose name begins with the text, letter by letter: in the slots' order, each as often as it stands there. An upload above the limit is refused by 5, too few places by 6, with how many entries of the branch there are.
pub fn branch_meant<'a, E: Named<'a>>()
    ensures { (mode : Mode) → BranchMeant E.places E.HEADER (E.read mode) E.length_of E.name_of }
{}

/// Asked through a name index that was built, also by halving, a branch is a run of neighbours, in order, with every entry of it, each once.
pub fn branch_in_index<'a, E: Named<'a>>()
    ensures { (mode : Mode) → BranchInIndex E.places E.HEADER (E.read mode) E.length_of E.name_of }
{}

/// Of symbols what is found is what `symbol_find` finds.
pub fn symbols_found()
    ensures { SymbolsFound }
{}

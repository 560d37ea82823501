//! The theorems (docs/FORMAT.md, "The command's text" and "Name index"). Each is the contract of a function that does nothing, so that none goes unnoticed if its proof does.
#![tactic(auto)]

ghost use Rattle.branching.specs.Meaning.{BranchWritten, SortedWritten};
ghost use Rattle.branching.specs.Tables.{ListWritten};

/// An upload above the limit is refused by 5, one in which a step of the walk stands by 10; else a branch is written as a line for each of the upload's entries whose names begin with the text, letter by letter in any case: each once, in the order of the names, with the members of docs/FORMAT.md by the entry's bytes, or in a table as wide as these lines need.
pub fn branch_written()
    ensures { BranchWritten }
{}

/// An upload above the limit has no sorted list, which is 5, nor has one in which a step of the walk stands, 10; else the sorted list has the lines of the list, each once, and its counts: those of accepted entries in the order of the names, behind them those of refused ones in the upload's order; in a table too.
pub fn sorted_written()
    ensures { SortedWritten }
{}

/// The table of `list`, of an upload within the limit, has a line for the entry at each step of the walk, in order: of an accepted entry by its bytes, of a refused one its place and the refusal in words. Each column is wide enough for its heading and its cells, and no wider than the widest of them.
pub fn list_written()
    ensures { ListWritten }
{}

//! What the symbol writer writes is plain, and plain uploads and lists of fit symbols match one to one: nothing to run, but these theorems. docs/FORMAT.md, "Plain form".
#![tactic(auto)]

ghost use Rattle.symbols_plain.specs.Written.{WrittenPlain};
ghost use Rattle.symbols_plain.specs.OneToOne.{PlainOneToOne};

// Each theorem is the contract of a function that does nothing, so that none goes unnoticed if its proof does.

/// What the symbol writer writes is plain, and tells the symbol; read and written again, that is the symbol that was given.
pub fn written_plain()
    ensures { WrittenPlain }
{}

/// Plain uploads and lists of fit symbols match one to one: to write the symbols, and to read an upload for its symbols, undo each other.
pub fn plain_one_to_one()
    ensures { PlainOneToOne }
{}

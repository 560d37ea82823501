//! The line-up tables: nothing to run, but theorems about the definitions, of smallest cases and of entries in which every number is another.
#![tactic(auto)]

ghost use Rattle.lineup.specs.Fields.{FieldsLineUp};
ghost use Rattle.lineup.specs.LineUp.{LineUp};
ghost use Rattle.lineup.specs.Refusals.{RefusalsLineUp};
ghost use Rattle.lineup.specs.Symbols.{SymbolsLineUp};
ghost use Rattle.lineup.specs.Types.{TypesLineUp};

// The theorems. Each is the contract of a function that does nothing, so that none goes unnoticed if its proof does.

/// L1 to L12 of the line-up table, in its numbers and figures, of the present mode.
pub fn line_up()
    ensures { LineUp }
{}

/// A symbol in which every number is another, read and written, and the least ones of each flag that has a section.
pub fn symbols_line_up()
    ensures { SymbolsLineUp }
{}

/// A field in which every number is another, read and written, and the least ones of each flag that has a section.
pub fn fields_line_up()
    ensures { FieldsLineUp }
{}

/// A data type in which every number is another, its array record, and where its members stand, down to depth 4.
pub fn types_line_up()
    ensures { TypesLineUp }
{}

/// The least cases of the refusals that L1 to L12 have not, by number and figures.
pub fn refusals_line_up()
    ensures { RefusalsLineUp }
{}

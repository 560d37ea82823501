//! What was exported as a sheet comes back (docs/FORMAT.md, "Sheet"). There is nothing to run.
#![tactic(auto)]

ghost use Rattle.sheets_back.specs.Back.{SheetsComeBack};
ghost use Rattle.sheets_back.specs.Again.{SheetsAgain};
ghost use Rattle.sheets_back.specs.Entries.{SheetsWritten};

/// The sheet of an upload is imported as that upload, byte for byte, wherever the two lie.
pub fn sheets_come_back()
    ensures { SheetsComeBack }
{}

/// The upload of a sheet is, row after row, what the symbol writer gives for a symbol of the row's numbers and strings.
pub fn sheets_written()
    ensures { SheetsWritten }
{}

/// An upload that was made of a sheet has a sheet, the rows of that one row after row: their numbers without leading zeros, their
/// strings, and quotes where they are needed. A sheet that was exported comes back byte for byte.
pub fn sheets_again()
    ensures { SheetsAgain }
{}

//! Sheets: an upload of symbols as a table in text, a row for each symbol, and back (docs/FORMAT.md, "Sheet").
#![tactic(auto)]

ghost use Rattle.sheet.specs.CellsMeant.{CellsMeant};
ghost use Rattle.sheet.specs.ExportMeant.{AdmittedMeant, ExportsMeant};

mod cells;
mod exporter;

pub use cells::is_special;
pub use exporter::export;

// The theorems. Each is the contract of a function that does nothing, so that none goes unnoticed if its proof does.

/// A cell is the text of its string, between quotes and with quotes doubled exactly where a comma, a quote, CR or LF is in it; a row
/// is the numbers and strings of its entry from their places, and a sheet the header and its rows.
pub fn cells_meant()
    ensures { CellsMeant }
{}

/// A sheet holds an entry exactly where it has no flagged section, its bytes end behind the comment's end byte and each end byte is
/// 0; else it is refused by the first of its reasons.
pub fn admitted_meant()
    ensures { AdmittedMeant }
{}

/// An upload above the limit is refused with 5. Within it the header is written and a row for each entry, in order; or the first entry
/// that is refused or not for a sheet decides.
pub fn exports_meant()
    ensures { ExportsMeant }
{}

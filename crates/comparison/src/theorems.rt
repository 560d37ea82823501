//! The theorems (docs/FORMAT.md, "The command's text"). Each is the contract of a function that does nothing, so that none goes unnoticed if its proof does.
#![tactic(auto)]

ghost use Rattle.comparison.specs.Meant.{CountsMeant, JsonMeant, TextsMeant};
ghost use Rattle.comparison.specs.Sample.{ReportMeant};
ghost use Rattle.comparison.specs.TableMeant.{TableMeant};

/// Each number of the last line is how many rows there are of what it tells.
pub fn counts_meant()
    ensures { CountsMeant }
{}

/// The last line of the table, the lines of what moved, those of entries up to their parts, and these parts, with every number another.
pub fn texts_meant()
    ensures { TextsMeant }
{}

/// In JSON nothing is written exactly where every entry stays: both uploads have it, in the same bytes and at the same place.
pub fn json_meant()
    ensures { JsonMeant }
{}

/// The lines of the table word for word, with every number another; there is no table exactly where every entry stays, of entries within the
/// limit; and in one the headings and the cells of every line fill their columns, a name that is shown in 60 characters at most among them,
/// so the columns begin at the same character in every line. That of the names is no wider than 60 characters.
pub fn table_meant()
    ensures { TableMeant }
{}

/// Of two uploads all that is written, in both forms, character by character: of an entry that differs, of one that each has alone, and
/// of two that start later in B by as many bytes, which is told once.
pub fn report_meant()
    ensures { ReportMeant }
{}

//! What the command prints of an upload of symbols (docs/FORMAT.md, "The command's text").
#![tactic(auto)]

ghost use Rattle.std.specs.Prelude.{◌≡◌, Some};
ghost use Rattle.report.specs.Aligned.{TablesMeant};
ghost use Rattle.report.specs.Meant.{LinesMeant, TextsMeant};
ghost use Rattle.report.specs.Sample.{SampleTold};
ghost use Rattle.report.specs.Tallies.{TalliesMeant};
ghost use Rattle.report.specs.Report.{form_text, mode_text, upload_text, nothing_counted, counted, all_of};

pub mod cells;
pub mod check;
pub mod json;
pub mod list;
pub mod table;

use refusal::{Mode, Refusal};
use std::fmt;
use symbol::AdsSymbolInfo;
use upload::Form;
use wording::Bytes;

/// An upload, and where it is from.
#[derive(Clone, Copy)]
pub struct Upload<'a> {
    /// Where it is from, as the command tells it.
    pub path: &'a str,
    /// What it was read as.
    pub form: Form,
    /// How its entries are read.
    pub mode: Mode,
    /// The upload.
    pub bytes: &'a [u8],
}

fn form_text(form: Form) -> &'static str
    ensures { result.now ≡ form_text form }
{
    match form {
        Form::Binary => "binary",
        Form::Hexadecimal => "hexadecimal text",
    }
}

fn mode_text(mode: Mode) -> &'static str
    ensures { result.now ≡ mode_text mode }
{
    match mode {
        Mode::Present => "",
        Mode::Checked => ", checked",
    }
}

/// Where it is from, as which form it was read, how long it is, and whether end bytes are looked at.
impl fmt::Display for Upload<'_> {
    ghost output = { λ u. Some (upload_text u) };

    #[tactic(auto, unfolding(crate::specs::Report::upload_text))]
    fn fmt<W: fmt::Write>(&self, f: &mut fmt::Formatter<W>) -> fmt::Result {
        let path = self.path;
        let form = form_text(self.form);
        let length = Bytes(self.bytes.len());
        let mode = mode_text(self.mode);
        write!(f, "{path} ({form}, {length}{mode})")
    }
}

/// How many entries were accepted and how many refused, and how many of the accepted have bytes after their sections that are left unread. A count stays at the highest number once it is there.
#[derive(Clone, Copy, Debug)]
pub struct Tally {
    /// Accepted entries.
    pub accepted: usize,
    /// Refused ones.
    pub refused: usize,
    /// Accepted ones with bytes left unread.
    pub grown: usize,
    /// Bytes left unread, of all.
    pub unread: usize,
}

impl Tally {
    /// Of no entry yet.
    pub fn new() -> Self
        ensures { result ≡ nothing_counted }
    {
        Tally {
            accepted: 0,
            refused: 0,
            grown: 0,
            unread: 0,
        }
    }

    /// How many there are.
    pub fn all(&self) -> usize
        ensures { result ≡ all_of self.now }
    {
        self.accepted.saturating_add(self.refused)
    }

    /// One more.
    #[tactic(auto, unfolding(crate::specs::Report::counted))]
    pub fn count(&mut self, answer: &Result<AdsSymbolInfo<'_>, Refusal>)
        ensures { self.new ≡ counted self.old answer.now }
    {
        match answer {
            Ok(symbol) => {
                self.accepted = self.accepted.saturating_add(1);
                let left = symbol.unread.len();
                if left > 0 {
                    self.grown = self.grown.saturating_add(1);
                }
                self.unread = self.unread.saturating_add(left);
            }
            Err(_) => self.refused = self.refused.saturating_add(1),
        }
    }
}

// The theorems. Each is the contract of a function that does nothing, so that none goes unnoticed if its proof does.

/// A line of JSON is an object with the members of docs/FORMAT.md in their order: of a symbol by the bytes of its entry, of an entry
/// that was refused by the refusal's number and figures.
pub fn lines_meant()
    ensures { LinesMeant }
{}

/// What `check` says of an upload, of its refused entries and of how many there are, stands where it should.
pub fn texts_meant()
    ensures { TextsMeant }
{}

/// In a table each column begins at the same character in every line and is wide enough for each of its cells, of which all characters
/// stand there; between two columns are two spaces. The cells of an accepted entry are by its bytes.
pub fn tables_meant()
    ensures { TablesMeant }
{}

/// Of the entries of an upload those are counted that were accepted, that were refused, and that have bytes left; and of all the bytes left
/// are added.
pub fn tallies_meant()
    ensures { TalliesMeant }
{}

/// A symbol with every section, in which every number is another, and the start of another entry, byte by byte; and what is written of
/// them: lines of JSON, a table, and what `check` says.
pub fn sample_told()
    ensures { SampleTold }
{}

//! `salvage`: the accepted entries of a damaged upload, and a table of what was dropped (docs/FORMAT.md, "The command's text").
#![tactic(auto)]

ghost use Rattle.std.specs.Prelude.{◌≡◌, ◌≤◌, ◌++◌, IfOk, OnOk, Some, codes, length};
ghost use Rattle.std.specs.List.{flat_map};
ghost use Rattle.std.specs.Io.KnownBytes.{Appends};
ghost use Rattle.symbol.specs.Symbol.{symbol_of};
ghost use Rattle.walk.specs.Pieces.{pieces};
ghost use Rattle.salvage.specs.Salvage.{bytes_of, kept};
ghost use Rattle.report.specs.Report.{tally_of, upload_text};
ghost use Rattle.salvage_report.specs.Dropped.{dropped_of, dropped_text, kept_text};
ghost use Rattle.salvage_report.specs.Runs.{headings, fitted, widths_of, headings_text, run_text, table_text, report_text};
ghost use Rattle.salvage_report.specs.Meaning.{SalvageReported};

use report::cells::{AtRight, Number, digits};
use report::{Tally, Upload};
use std::alloc::{AllocError, Global};
use std::io::Write;
use std::{fmt, io};
use symbol::{AdsSymbolInfo, Symbols};
use walk::Piece;
use wording::{Bytes, InWords, Many};

/// An upload's accepted entries, and how many there are.
#[derive(Debug, Drop)]
pub struct Salvaged {
    /// The new upload.
    pub kept: Vec<u8>,
    /// The entries of the old one.
    pub tally: Tally,
}

// Adds the bytes of a piece that was accepted.
#[tactic(auto, unfolding(le::specs::Le::part))]
fn keep(bytes: &[u8], piece: &Piece<AdsSymbolInfo<'_>>, out: &mut Vec<u8>) -> Result<(), AllocError>
    requires forward { piece.now.start ≤ piece.now.end }
    requires within { piece.now.end ≤ length bytes.now }
    ensures { OnOk result (out.new.items ≡ out.old.items ++ bytes_of bytes.now piece.now.start piece.now.end piece.now.answer) }
{
    match &piece.answer {
        Ok(_) => out.extend_from_slice(&bytes[piece.start..piece.end]),
        Err(_) => Ok(()),
    }
}

/// Salvages an upload (docs/FORMAT.md, "Salvage").
pub fn salvage(alloc: Global, upload: &Upload<'_>) -> Result<Salvaged, AllocError>
    ensures kept { IfOk result (λ s. s.kept.items ≡ kept upload.now.bytes.now (pieces (symbol_of upload.now.mode) upload.now.bytes)) }
    ensures tally { IfOk result (λ s. s.tally ≡ tally_of (pieces (symbol_of upload.now.mode) upload.now.bytes)) }
{
    let bytes = upload.bytes;
    let mut kept = Vec::new(alloc);
    let mut tally = Tally::new();
    for piece in Symbols::new(bytes, upload.mode) {
        tally.count(&piece.answer);
        keep(bytes, &piece, &mut kept)?;
    }
    Ok(Salvaged { kept, tally })
}

/// What was dropped of an upload, in words.
#[derive(Clone, Copy)]
pub struct Dropped {
    /// In so many runs.
    pub runs: usize,
    /// So many bytes.
    pub bytes: usize,
}

impl Dropped {
    /// What this salvage of an upload dropped.
    pub fn of(upload: &Upload<'_>, salvaged: &Salvaged) -> Dropped
        ensures { result ≡ dropped_of upload.now salvaged.now.tally salvaged.now.kept.items }
    {
        Dropped {
            runs: salvaged.tally.refused,
            bytes: upload.bytes.len().saturating_sub(salvaged.kept.len()),
        }
    }
}

impl fmt::Display for Dropped {
    ghost output = { λ d. Some (dropped_text d) };

    #[tactic(auto, unfolding(crate::specs::Dropped::dropped_text))]
    fn fmt<W: fmt::Write>(&self, f: &mut fmt::Formatter<W>) -> fmt::Result {
        let runs = Many {
            number: self.runs,
            one: "run",
            more: "runs",
        };
        let bytes = Bytes(self.bytes);
        write!(f, "dropped: {runs}, {bytes}")
    }
}

// How wide the first two columns of the table are: as the widest of their headings and of the numbers that are to stand in them.
#[derive(Clone, Copy)]
struct Widths {
    place: usize,
    length: usize,
}

impl Widths {
    // For the headings alone.
    fn new() -> Self
        ensures { result ≡ headings }
    {
        Widths {
            place: 5,
            length: 6,
        }
    }

    // Wide enough for one more piece, of which nothing stands there if it was accepted.
    #[tactic(auto, unfolding(crate::specs::Runs::fitted))]
    fn fit(&mut self, piece: &Piece<AdsSymbolInfo<'_>>)
        ensures { self.new ≡ fitted self.old piece.now }
    {
        if piece.answer.is_err() {
            let length = piece.end.saturating_sub(piece.start);
            self.place = self.place.max(digits(piece.start, 10));
            self.length = self.length.max(digits(length, 10));
        }
    }
}

fn widths_of(upload: &Upload<'_>) -> Widths
    ensures { result ≡ widths_of (pieces (symbol_of upload.now.mode) upload.now.bytes) }
{
    let mut widths = Widths::new();
    for piece in Symbols::new(upload.bytes, upload.mode) {
        widths.fit(&piece);
    }
    widths
}

fn write_upload<W: Write>(upload: &Upload<'_>, out: &mut W) -> io::Result<()>
    ensures { OnOk result (Appends (W.contents out.old) (W.contents out.new) (upload_text upload.now ++ codes "\n")) }
{
    writeln!(out, "{upload}")
}

#[tactic(auto, unfolding(crate::specs::Dropped::kept_text))]
fn write_kept<W: Write>(
    upload: &Upload<'_>,
    salvaged: &Salvaged,
    to: &str,
    out: &mut W,
) -> io::Result<()>
    ensures { OnOk result (Appends (W.contents out.old) (W.contents out.new) (kept_text salvaged.now.tally.accepted (length salvaged.now.kept.items) to.now (dropped_of upload.now salvaged.now.tally salvaged.now.kept.items))) }
{
    let entries = Many {
        number: salvaged.tally.accepted,
        one: "entry",
        more: "entries",
    };
    let bytes = Bytes(salvaged.kept.len());
    let dropped = Dropped::of(upload, salvaged);
    writeln!(out, "kept: {entries}, {bytes}, in {to}; {dropped}")
}

/// Writes a line for each run that was dropped, and what was kept; `to` is where that is.
#[tactic(auto, unfolding(crate::specs::Runs::report_text))]
pub fn write<W: Write>(
    upload: &Upload<'_>,
    salvaged: &Salvaged,
    to: &str,
    out: &mut W,
) -> io::Result<()>
    ensures { OnOk result (Appends (W.contents out.old) (W.contents out.new) (report_text upload.now salvaged.now.tally salvaged.now.kept.items to.now)) }
{
    write_upload(upload, out)?;
    write_table(upload, &salvaged.tally, out)?;
    write_kept(upload, salvaged, to, out)?;
    Ok(())
}

// A table of what was dropped, if anything was.
#[tactic(auto, unfolding(crate::specs::Runs::table_text))]
fn write_table<W: Write>(upload: &Upload<'_>, tally: &Tally, out: &mut W) -> io::Result<()>
    ensures { OnOk result (Appends (W.contents out.old) (W.contents out.new) (table_text tally.now (pieces (symbol_of upload.now.mode) upload.now.bytes))) }
{
    if tally.refused == 0 {
        return Ok(());
    }
    let widths = widths_of(upload);
    write_headings(widths, out)?;
    write_runs(upload, widths, out)?;
    Ok(())
}

#[tactic(auto, unfolding(crate::specs::Runs::headings_text))]
fn write_headings<W: Write>(widths: Widths, out: &mut W) -> io::Result<()>
    ensures { OnOk result (Appends (W.contents out.old) (W.contents out.new) (headings_text widths)) }
{
    let place = AtRight("place", widths.place);
    let length = AtRight("length", widths.length);
    writeln!(out, "{place}  {length}  why")
}

#[tactic(auto, unfolding(crate::specs::Runs::run_text))]
fn write_run<W: Write>(
    piece: &Piece<AdsSymbolInfo<'_>>,
    widths: Widths,
    out: &mut W,
) -> io::Result<()>
    ensures { OnOk result (Appends (W.contents out.old) (W.contents out.new) (run_text widths piece.now)) }
{
    match &piece.answer {
        Ok(_) => Ok(()),
        Err(why) => {
            let place = Number {
                number: piece.start,
                column: widths.place,
            };
            let length = Number {
                number: piece.end.saturating_sub(piece.start),
                column: widths.length,
            };
            let why = InWords(why);
            writeln!(out, "{place}  {length}  {why}")
        }
    }
}

// An upload can have millions, so none is kept as text.
fn write_runs<W: Write>(upload: &Upload<'_>, widths: Widths, out: &mut W) -> io::Result<()>
    ensures { OnOk result (Appends (W.contents out.old) (W.contents out.new) (flat_map (run_text widths) (pieces (symbol_of upload.now.mode) upload.now.bytes))) }
{
    for piece in Symbols::new(upload.bytes, upload.mode) {
        write_run(&piece, widths, out)?;
    }
    Ok(())
}

// Theorems. Each is the contract of a function that does nothing, so that none goes unnoticed if its proof does.

/// What is written of a salvage of an upload within the limit: a line for each of the pieces that were dropped, in order, with its place, its length and its refusal, in columns that are as wide as the widest of heading and cells and no wider; and how many entries and bytes were kept and dropped, these being the whole upload.
pub fn salvage_reported()
    ensures { SalvageReported }
{}

//! `check`: how many entries there are, what was refused, and where.
ghost use Rattle.std.specs.Prelude.{◌≡◌, ◌++◌, OnOk, IfOk, Some, codes};
ghost use Rattle.std.specs.List.{flat_map};
ghost use Rattle.std.specs.Io.KnownBytes.{Appends};
ghost use Rattle.symbol.specs.Symbol.{symbol_of};
ghost use Rattle.walk.specs.Pieces.{pieces};
ghost use Rattle.report.specs.Report.{check_text, counts_text, entries, refused_line, summary_text, tally_of, unread_text, upload_text};

use crate::{Tally, Upload};
use std::io::Write;
use std::{fmt, io};
use symbol::{AdsSymbolInfo, Symbols};
use walk::Piece;
use wording::{Bytes, Grouped, InWords, Many};

// So many entries.
#[derive(Clone, Copy)]
struct Entries(usize);

impl fmt::Display for Entries {
    ghost output = { λ n. Some (entries n.0) };

    fn fmt<W: fmt::Write>(&self, f: &mut fmt::Formatter<W>) -> fmt::Result {
        let many = Many {
            number: self.0,
            one: "entry",
            more: "entries",
        };
        many.fmt(f)
    }
}

// How many entries there are.
#[derive(Clone, Copy)]
struct Counts(Tally);

impl fmt::Display for Counts {
    ghost output = { λ s. Some (counts_text s.0) };

    #[tactic(auto, unfolding(crate::specs::Report::counts_text))]
    fn fmt<W: fmt::Write>(&self, f: &mut fmt::Formatter<W>) -> fmt::Result {
        let all = Entries(self.0.all());
        let (accepted, refused) = (Grouped(self.0.accepted), Grouped(self.0.refused));
        write!(f, "{all}: {accepted} accepted, {refused} refused\n")
    }
}

#[tactic(auto, unfolding(crate::specs::Report::refused_line))]
fn write_refused<W: Write>(piece: &Piece<AdsSymbolInfo<'_>>, out: &mut W) -> io::Result<()>
    ensures { OnOk result (Appends (W.contents out.old) (W.contents out.new) (refused_line piece.now)) }
{
    match &piece.answer {
        Ok(_) => Ok(()),
        Err(why) => {
            let at = piece.start;
            let why = InWords(why);
            writeln!(out, "at {at}: {why}")
        }
    }
}

fn write_all_refused<W: Write>(upload: &Upload<'_>, out: &mut W) -> io::Result<Tally>
    ensures text { OnOk result (Appends (W.contents out.old) (W.contents out.new) (flat_map refused_line (pieces (symbol_of upload.now.mode) upload.now.bytes))) }
    ensures tally { IfOk result (λ tally. tally ≡ tally_of (pieces (symbol_of upload.now.mode) upload.now.bytes)) }
{
    let mut tally = Tally::new();
    for piece in Symbols::new(upload.bytes, upload.mode) {
        tally.count(&piece.answer);
        write_refused(&piece, out)?;
    }
    Ok(tally)
}

fn write_upload<W: Write>(upload: &Upload<'_>, out: &mut W) -> io::Result<()>
    ensures { OnOk result (Appends (W.contents out.old) (W.contents out.new) (upload_text upload.now ++ codes "\n")) }
{
    writeln!(out, "{upload}")
}

fn write_counts<W: Write>(tally: Tally, out: &mut W) -> io::Result<()>
    ensures { OnOk result (Appends (W.contents out.old) (W.contents out.new) (counts_text tally)) }
{
    let counts = Counts(tally);
    write!(out, "{counts}")
}

#[tactic(auto, unfolding(crate::specs::Report::unread_text))]
fn write_unread<W: Write>(tally: Tally, out: &mut W) -> io::Result<()>
    ensures { OnOk result (Appends (W.contents out.old) (W.contents out.new) (unread_text tally)) }
{
    if tally.grown == 0 {
        return Ok(());
    }
    let bytes = Bytes(tally.unread);
    let grown = Entries(tally.grown);
    writeln!(out, "left unread: {bytes}, in {grown}")
}

// What the refusals leave is told after them: who looks for the one fault of a large upload reads the end.
fn write_summary<W: Write>(tally: Tally, out: &mut W) -> io::Result<()>
    ensures { OnOk result (Appends (W.contents out.old) (W.contents out.new) (summary_text tally)) }
{
    write_counts(tally, out)?;
    write_unread(tally, out)?;
    Ok(())
}

/// Writes what was refused and where, and how many entries there are; how many of these were refused.
pub fn check<W: Write>(upload: &Upload<'_>, out: &mut W) -> io::Result<Tally>
    ensures text { OnOk result (Appends (W.contents out.old) (W.contents out.new) (check_text upload.now)) }
    ensures tally { IfOk result (λ tally. tally ≡ tally_of (pieces (symbol_of upload.now.mode) upload.now.bytes)) }
{
    write_upload(upload, out)?;
    let tally = write_all_refused(upload, out)?;
    write_summary(tally, out)?;
    Ok(tally)
}

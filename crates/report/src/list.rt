//! `list --json`: a line for each entry.
ghost use Rattle.std.specs.Prelude.{◌≡◌, OnOk, IfOk};
ghost use Rattle.std.specs.List.{flat_map};
ghost use Rattle.std.specs.Io.KnownBytes.{Appends};
ghost use Rattle.symbol.specs.Symbol.{symbol_of};
ghost use Rattle.walk.specs.Pieces.{pieces};
ghost use Rattle.report.specs.Report.{json_line, tally_of};

use crate::json::{RefusedEntry, SymbolEntry};
use crate::{Tally, Upload};
use std::io;
use std::io::Write;
use symbol::{AdsSymbolInfo, Symbols};
use walk::Piece;

/// Writes the line of an entry.
#[tactic(auto, unfolding(crate::specs::Report::json_line))]
pub fn write_line<W: Write>(piece: &Piece<AdsSymbolInfo<'_>>, out: &mut W) -> io::Result<()>
    ensures { OnOk result (Appends (W.contents out.old) (W.contents out.new) (json_line piece.now)) }
{
    let place = piece.start;
    match &piece.answer {
        Ok(symbol) => {
            let entry = SymbolEntry { place, symbol };
            writeln!(out, "{entry}")
        }
        Err(why) => {
            let entry = RefusedEntry { place, why };
            writeln!(out, "{entry}")
        }
    }
}

/// Writes a line of JSON for each entry; how many there are, and how many were refused.
pub fn list<W: Write>(upload: &Upload<'_>, out: &mut W) -> io::Result<Tally>
    ensures text { OnOk result (Appends (W.contents out.old) (W.contents out.new) (flat_map json_line (pieces (symbol_of upload.now.mode) upload.now.bytes))) }
    ensures tally { IfOk result (λ tally. tally ≡ tally_of (pieces (symbol_of upload.now.mode) upload.now.bytes)) }
{
    let mut tally = Tally::new();
    for piece in Symbols::new(upload.bytes, upload.mode) {
        tally.count(&piece.answer);
        write_line(&piece, out)?;
    }
    Ok(tally)
}

//! `compare`: which entries of two uploads differ and in which parts, which one of them has alone, and what else moved
//! (docs/FORMAT.md, "The command's text").
#![tactic(auto)]

ghost use Rattle.std.specs.Prelude.{◌≡◌, ◌++◌, IfOk, OnOk, codes};
ghost use Rattle.std.specs.Io.KnownBytes.{Appends};
ghost use Rattle.pairing.specs.Pieces.{pieces_of};
ghost use Rattle.pairing.specs.Rows.{are_alike, rows_in, rows_of};
ghost use Rattle.comparison.specs.Counts.{counted_on, counted_text, nothing};
ghost use Rattle.comparison.specs.Report.{report_text, uploads_text, written_text};

mod counts;
mod entries;
mod json;
mod moved;
mod table;
pub mod theorems;

use counts::Counted;
use pairing::pairs::pairs;
use pairing::pieces::pieces;
use pairing::rows::Rows;
use report::Upload;
use std::alloc::Global;
use std::io;
use std::io::Write;

/// Writes what two uploads differ in; whether they are alike, every entry at its place and in its bytes.
#[tactic(auto, unfolding(pairing::specs::Rows::rows_of))]
pub fn compare<W: Write>(
    alloc: Global,
    a: &Upload<'_>,
    b: &Upload<'_>,
    as_json: bool,
    out: &mut W,
) -> io::Result<bool>
    ensures alike { IfOk result (λ alike. alike ≡ are_alike a.now b.now) }
    ensures written { OnOk result (Appends (W.contents out.old) (W.contents out.new) (written_text as_json a.now b.now (rows_of (pieces_of a.now) (pieces_of b.now)))) }
{
    let pieces_of_a = pieces(alloc, a)?;
    let pieces_of_b = pieces(alloc, b)?;
    let pairs = pairs(alloc, pieces_of_a.as_slice(), pieces_of_b.as_slice())?;
    let rows = Rows {
        a: pieces_of_a.as_slice(),
        b: pieces_of_b.as_slice(),
        pairs: pairs.as_slice(),
        mode: a.mode,
    };
    write_rows(alloc, a, b, &rows, as_json, out)?;
    Ok(rows.are_alike())
}

fn write_rows<W: Write>(
    alloc: Global,
    a: &Upload<'_>,
    b: &Upload<'_>,
    rows: &Rows<'_, '_>,
    as_json: bool,
    out: &mut W,
) -> io::Result<()>
    requires { rows.now.mode ≡ a.now.mode }
    ensures { OnOk result (Appends (W.contents out.old) (W.contents out.new) (written_text as_json a.now b.now (rows_in rows.now))) }
{
    if as_json {
        json::write(alloc, rows, out)
    } else {
        write_table(alloc, a, b, rows, out)
    }
}

#[tactic(auto, unfolding(crate::specs::Report::report_text))]
fn write_table<W: Write>(
    alloc: Global,
    a: &Upload<'_>,
    b: &Upload<'_>,
    rows: &Rows<'_, '_>,
    out: &mut W,
) -> io::Result<()>
    requires { rows.now.mode ≡ a.now.mode }
    ensures { OnOk result (Appends (W.contents out.old) (W.contents out.new) (report_text a.now b.now (rows_in rows.now))) }
{
    write_uploads(a, b, out)?;
    table::write(alloc, rows, out)?;
    write_counted(rows, out)?;
    Ok(())
}

fn write_uploads<W: Write>(a: &Upload<'_>, b: &Upload<'_>, out: &mut W) -> io::Result<()>
    ensures { OnOk result (Appends (W.contents out.old) (W.contents out.new) (uploads_text a.now b.now)) }
{
    write!(out, "A: {a}\nB: {b}\n")
}

fn write_counted<W: Write>(rows: &Rows<'_, '_>, out: &mut W) -> io::Result<()>
    ensures { OnOk result (Appends (W.contents out.old) (W.contents out.new) (counted_text (counted_on nothing (rows_in rows.now)) ++ codes "\n")) }
{
    let counted = Counted::of(rows);
    writeln!(out, "{counted}")
}

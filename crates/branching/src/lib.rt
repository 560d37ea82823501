//! The symbols of an upload in the order of their names: all, or those whose names begin with a text (docs/FORMAT.md, "The command's text").
#![tactic(auto)]

ghost use Rattle.std.specs.Prelude.{◌≡◌, ◌≤◌, ◌++◌, IfOk, IfErr, OnOk, Ok, Err, length};
ghost use Rattle.std.specs.List.{flat_map};
ghost use Rattle.std.specs.Io.KnownBytes.{Appends};
ghost use Rattle.refusal.specs.Refusal.{limit};
ghost use Rattle.report.specs.Report.{tally_of};
ghost use Rattle.report.specs.Table.{columns_of, line_text};
ghost use Rattle.branching.specs.declared.NoOrder.TheVariants.{Refused, Memory};
ghost use Rattle.branching.specs.Ordered.{IfRefused, by_name, branch, refused, sorted};
ghost use Rattle.branching.specs.Lines.{entry_at, entries_at, lines, table};

pub mod theorems;

use refusal::Refusal;
use report::table::Columns;
use report::{Tally, Upload, list};
use std::alloc::{AllocError, Global};
use std::io;
use std::io::Write;
use symbol::{AdsSymbolInfo, Symbols};
use walk::{Cursor, Piece};

/// Why there are no starts in the order of the names.
#[derive(Clone, Copy, Debug)]
pub enum NoOrder {
    /// The upload has none: 5 above the limit, 10 where a zero claim is met.
    Refused(Refusal),
    /// There is no memory left.
    Memory,
}

impl From<AllocError> for NoOrder {
    ghost from_gives = { λ e r. r ≡ Memory };

    fn from(_: AllocError) -> Self {
        NoOrder::Memory
    }
}

impl From<Refusal> for NoOrder {
    ghost from_gives = { λ e r. r ≡ Refused e };

    fn from(why: Refusal) -> Self {
        NoOrder::Refused(why)
    }
}

// Where the accepted entries start, in the order of their names.
fn by_name(alloc: Global, upload: &Upload<'_>) -> Result<Vec<u32>, NoOrder>
    ensures ok { IfOk result (λ v. by_name upload.now ≡ Ok v.items) }
    ensures refused { IfErr result (λ e. IfRefused e (λ why. by_name upload.now ≡ Err why)) }
{
    let room = room::room(upload.bytes.len())?;
    let mut slots = vec![in alloc; 0u32; room]?;
    let count = name_index::build::<AdsSymbolInfo>(
        upload.bytes,
        upload.mode,
        slots.as_mut_slice(),
    )?;
    slots.truncate(count);
    Ok(slots)
}

/// Where those start whose names begin with a text, A to Z equal to a to z, in the order of the names.
///
/// # Errors
///
/// 5 above the limit, 10 where a zero claim is met; no memory.
pub fn branch(alloc: Global, upload: &Upload<'_>, text: &[u8]) -> Result<Vec<u32>, NoOrder>
    ensures ok { IfOk result (λ v. branch upload.now text.now ≡ Ok v.items) }
    ensures refused { IfErr result (λ e. IfRefused e (λ why. branch upload.now text.now ≡ Err why)) }
{
    let all = by_name(alloc, upload)?;
    let mut starts = vec![in alloc; 0u32; all.len()]?;
    let count = name_index::branch_ordered::<AdsSymbolInfo>(
        upload.bytes,
        upload.mode,
        all.as_slice(),
        text,
        starts.as_mut_slice(),
    )?;
    starts.truncate(count);
    Ok(starts)
}

// Adds where the refused entries start, in the upload's order.
fn push_refused(upload: &Upload<'_>, starts: &mut Vec<u32>) -> Result<(), AllocError>
    requires { length upload.now.bytes.now ≤ limit }
    ensures { OnOk result (starts.new.items ≡ starts.old.items ++ refused upload.now) }
{
    for piece in Symbols::new(upload.bytes, upload.mode) {
        if piece.answer.is_ok() {
            continue;
        }
        starts.push(piece.start as u32)?;
    }
    Ok(())
}

/// Where all entries start: the accepted ones in the order of their names, behind them the refused ones in the upload's order.
///
/// # Errors
///
/// 5 above the limit, 10 where a zero claim is met; no memory.
pub fn sorted(alloc: Global, upload: &Upload<'_>) -> Result<Vec<u32>, NoOrder>
    ensures ok { IfOk result (λ v. sorted upload.now ≡ Ok v.items) }
    ensures refused { IfErr result (λ e. IfRefused e (λ why. sorted upload.now ≡ Err why)) }
{
    let mut starts = by_name(alloc, upload)?;
    push_refused(upload, &mut starts)?;
    Ok(starts)
}

// What stands from a place on: nothing at the upload's end.
fn entry_at<'a>(upload: &Upload<'a>, start: u32) -> Option<Piece<AdsSymbolInfo<'a>>>
    ensures { result ≡ entry_at upload.now start }
{
    let mut walker = Symbols::new(upload.bytes, upload.mode);
    walker.cursor = Cursor { at: start as usize };
    walker.next()
}

/// Writes a line of JSON for the entry at each of some starts; how many there are, and how many were refused.
pub fn write_lines<W: Write>(upload: &Upload<'_>, starts: &[u32], out: &mut W) -> io::Result<Tally>
    ensures text { OnOk result (Appends (W.contents out.old) (W.contents out.new) (lines upload.now starts.now)) }
    ensures tally { IfOk result (λ tally. tally ≡ tally_of (entries_at upload.now starts.now)) }
{
    let mut tally = Tally::new();
    for start in starts {
        let Some(piece) = entry_at(upload, *start) else {
            continue;
        };
        tally.count(&piece.answer);
        list::write_line(&piece, out)?;
    }
    Ok(tally)
}

// As wide as the entries at some starts need them.
fn columns_of(upload: &Upload<'_>, starts: &[u32]) -> Columns
    ensures { result ≡ columns_of (entries_at upload.now starts.now) }
{
    let mut columns = Columns::new();
    for start in starts {
        let Some(piece) = entry_at(upload, *start) else {
            continue;
        };
        columns.fit(&piece);
    }
    columns
}

// A line for the entry at each of some starts, in columns of a table.
fn write_rows<W: Write>(
    upload: &Upload<'_>,
    starts: &[u32],
    columns: Columns,
    out: &mut W,
) -> io::Result<Tally>
    ensures text { OnOk result (Appends (W.contents out.old) (W.contents out.new) (flat_map (line_text columns) (entries_at upload.now starts.now))) }
    ensures tally { IfOk result (λ tally. tally ≡ tally_of (entries_at upload.now starts.now)) }
{
    let mut tally = Tally::new();
    for start in starts {
        let Some(piece) = entry_at(upload, *start) else {
            continue;
        };
        tally.count(&piece.answer);
        columns.write_line(&piece, out)?;
    }
    Ok(tally)
}

/// Writes a table with a line for the entry at each of some starts, as wide as these lines are; how many there are, and how many were refused.
pub fn write_table<W: Write>(upload: &Upload<'_>, starts: &[u32], out: &mut W) -> io::Result<Tally>
    ensures text { OnOk result (Appends (W.contents out.old) (W.contents out.new) (table upload.now starts.now)) }
    ensures tally { IfOk result (λ tally. tally ≡ tally_of (entries_at upload.now starts.now)) }
{
    let columns = columns_of(upload, starts);
    writeln!(out, "{upload}")?;
    columns.write_headings(out)?;
    let tally = write_rows(upload, starts, columns, out)?;
    Ok(tally)
}

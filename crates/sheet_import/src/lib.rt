//! An upload of symbols from a sheet (docs/FORMAT.md, "Sheet").
#![tactic(auto)]

ghost use Rattle.std.specs.Prelude.{◌≡◌, ◌+◌, ◌-◌, ◌*◌, ◌++◌, ◌≤◌, Ok, length};
ghost use Rattle.le.specs.Le.{bytes2};
ghost use Rattle.le.specs.Put.{put, Wrote};
ghost use Rattle.writing.specs.Layout.{string_bytes};
ghost use Rattle.writing.specs.Writing.{Writes};
ghost use Rattle.sheet_import.specs.Strings.{AreStrings, IsCellText, string_of};
ghost use Rattle.sheet_import.specs.ImportMeant.{ImportsMeant};
ghost use Rattle.sheet_import.specs.Import.{numbers_bytes, entry_of, row_entry, cells_checked, AreRows, AreShort, lines_in, lines_checked, told, upload_of, importing};

mod strings;

use refusal::Refusal;
use sheet_rows::{Cells, Extent, Numbers, Rows, Three};

// How many bytes an entry has beside those of its strings.
const BARE: usize = 33;

// How many it has before them.
const BEFORE: usize = 30;

// How many bytes a string has at most.
const LONGEST: usize = 65535;

// Refuses the first string of a row that is too long.
fn check_row(cells: &Three<'_>) -> Result<(), Refusal>
    requires { AreStrings cells.now }
    ensures { result ≡ cells_checked cells.now }
{
    writing::check_count(strings::string_length(cells.first))?;
    writing::check_count(strings::string_length(cells.second))?;
    writing::check_count(strings::string_length(cells.third))
}

// Refuses the first string of rows without a fault that is too long.
fn check_rows(rows: Rows<'_>) -> Result<(), Refusal>
    requires { AreRows rows.bytes }
    ensures { result ≡ lines_checked (lines_in rows.entry.bytes) }
{
    let mut left = rows;
    while let Some(cells) = sheet_rows::read_cells(left.bytes) {
        check_row(&cells.strings)?;
        left = Rows {
            bytes: cells.strings.rest,
        };
    }
    Ok(())
}

// The same. A string has no more bytes than its text, so that strings are measured only where a text is long.
fn check_strings(rows: Rows<'_>, longest: usize) -> Result<(), Refusal>
    requires rows { AreRows rows.bytes }
    requires short { longest ≤ 65535 → lines_checked (lines_in rows.bytes) ≡ Ok tt }
    ensures { result ≡ lines_checked (lines_in rows.entry.bytes) }
{
    if LONGEST < longest {
        return check_rows(rows);
    }
    Ok(())
}

// How many bytes the upload of rows has, whose strings take so many bytes more in the sheet than in Windows-1252. A sum that is above
// a usize stays at the largest.
fn upload_size(extent: &Extent, more: usize) -> usize
    requires { more ≤ extent.now.bytes }
    ensures { result ≡ told (33 * extent.now.rows + (extent.now.bytes - more)) }
{
    let entries = extent.rows.saturating_mul(BARE);
    entries.saturating_add(extent.bytes - more)
}

fn put_numbers(out: &mut [u8], at: usize, numbers: &Numbers) -> usize
    requires { at + 20 ≤ length out.old }
    ensures { Wrote out.old at (numbers_bytes numbers.now) out.new result }
{
    let a = le::put_u32(out, at, numbers.index_group);
    let b = le::put_u32(out, a, numbers.index_offset);
    let c = le::put_u32(out, b, numbers.size);
    let d = le::put_u32(out, c, numbers.data_type_id);
    let e = le::put_u16(out, d, numbers.flags);
    le::put_u16(out, e, numbers.high)
}

fn put_lengths(out: &mut [u8], at: usize, name: u16, type_name: u16, comment: u16) -> usize
    requires { at + 6 ≤ length out.old }
    ensures { Wrote out.old at (bytes2 name ++ (bytes2 type_name ++ bytes2 comment)) out.new result }
{
    let a = le::put_u16(out, at, name);
    let b = le::put_u16(out, a, type_name);
    le::put_u16(out, b, comment)
}

// Writes a string with its end byte.
fn put_string(out: &mut [u8], at: usize, text: &[u8]) -> usize
    requires text { IsCellText text.now }
    requires short { length (string_of text.now) ≤ 65535 }
    requires room { at + length (string_of text.now) + 1 ≤ length out.old }
    ensures { Wrote out.old at (string_bytes (string_of text.now)) out.new result }
{
    let end = strings::put_string(out, at, text);
    le::put_u8(out, end, 0)
}

// Writes the entry of a row at a place that has room for it, and gives the place after it. Its strings come first: where they end tells
// how long they are.
fn put_entry(out: &mut [u8], at: usize, numbers: &Numbers, cells: &Three<'_>) -> usize
    requires cells { AreStrings cells.now }
    requires short { AreShort cells.now }
    requires room { at + length (entry_of numbers.now cells.now) ≤ length out.old }
    ensures { Wrote out.old at (entry_of numbers.now cells.now) out.new result }
{
    let name = at + BEFORE;
    let type_name = put_string(out, name, cells.first);
    let comment = put_string(out, type_name, cells.second);
    let end = put_string(out, comment, cells.third);
    let a = le::put_u32(out, at, (end - at) as u32);
    let b = put_numbers(out, a, numbers);
    put_lengths(
        out,
        b,
        (type_name - name - 1) as u16,
        (comment - type_name - 1) as u16,
        (end - comment - 1) as u16,
    );
    end
}

// Writes the entry of a row that has numbers.
fn put_row(out: &mut [u8], at: usize, cells: &Cells<'_>) -> usize
    requires cells { AreStrings cells.now.strings }
    requires short { AreShort cells.now.strings }
    requires room { at + length (row_entry cells.now) ≤ length out.old }
    ensures { Wrote out.old at (row_entry cells.now) out.new result }
{
    match sheet_rows::read_numbers(cells) {
        Ok(numbers) => put_entry(out, at, &numbers, &cells.strings),
        Err(_) => at,
    }
}

// The rows are known to have no fault and strings that fit, and the upload to have room for their entries.
fn put_upload(rows: Rows<'_>, upload: &mut [u8])
    requires rows { AreRows rows.bytes }
    requires short { lines_checked (lines_in rows.bytes) ≡ Ok tt }
    requires room { length (upload_of (lines_in rows.bytes)) ≤ length upload.old }
    ensures { upload.new ≡ put upload.old 0 (upload_of (lines_in rows.entry.bytes)) }
{
    let mut at = 0;
    let mut left = rows;
    while let Some(cells) = sheet_rows::read_cells(left.bytes) {
        at = put_row(upload, at, &cells);
        left = Rows {
            bytes: cells.strings.rest,
        };
    }
}

/// Writes the upload of a sheet, and gives how many bytes it has. The rows are gone through twice, for their faults and to write them,
/// and the text once; nothing is written before all of it is known to be good. Where a cell has more than 65,535 bytes, the rows are
/// gone through a third time, for how long their strings are.
///
/// # Errors
///
/// Each over the whole sheet before the next: 18 at the first row with a fault; 11 at the first fault of its text; 7 at the
/// first string that is too long; 5 for the upload; 6.
pub fn import(sheet: &[u8], upload: &mut [u8]) -> Result<usize, Refusal>
    ensures { Writes (importing sheet.entry) upload.old upload.new result }
{
    let extent = sheet_rows::check(sheet)?;
    let length = text::encoded_length(sheet)?;
    let rows = sheet_rows::read_header(sheet)?;
    check_strings(rows, extent.longest)?;
    let needed = upload_size(&extent, sheet.len() - length);
    writing::check_room(needed, upload.len())?;
    put_upload(rows, upload);
    Ok(needed)
}

// The theorem. It is the contract of a function that does nothing, so that it does not go unnoticed if its proof does.

/// A sheet is refused exactly for its rows, then for the first fault of its text, then for the first string that is too long, then for
/// too long an upload; else the entries of its rows are written.
pub fn imports_meant()
    ensures { ImportsMeant }
{}

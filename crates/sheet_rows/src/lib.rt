//! The rows of a sheet, read cell by cell (docs/FORMAT.md, "Sheet").
#![tactic(auto)]

ghost use Rattle.std.specs.Prelude.{◌≡◌, ◌+◌, ◌≤◌, ◌<◌, ◌^◌, Ok, length};
ghost use Rattle.part.specs.Outcome.{and_then};
ghost use Rattle.sheet_rows.specs.Meant.{RowsMeant, NumbersMeant};
ghost use Rattle.sheet_rows.specs.SheetMeant.{SheetsMeant};
ghost use Rattle.sheet_rows.specs.Rows.{is_header, are_words, behind_header, line_of, lines_from, lines_of};
ghost use Rattle.sheet_rows.specs.Extent.{extent_of};

mod cells;
mod extent;
mod numbers;

pub use cells::{Cells, Three, read_cells};
use extent::with_row;
pub use extent::{Extent, text_length};
pub use numbers::{Numbers, read_numbers};
use refusal::Refusal;

/// Rows, one after another, as they stand in a sheet.
#[derive(Clone, Copy)]
pub struct Rows<'a> {
    /// What stands there.
    pub bytes: &'a [u8],
}

// Whether the cells of a row are the words of the header.
#[tactic(auto, unfolding(crate::specs::Rows::is_header))]
fn is_header(cells: &Cells<'_>) -> bool
    ensures { result ≡ is_header cells.now }
{
    let (places, kinds, strings) = (cells.places, cells.kinds, cells.strings);
    are_words(places, b"group", b"offset", b"size")
        && are_words(kinds, b"type id", b"flags", b"high")
        && are_words(strings, b"name", b"type", b"comment")
}

fn are_words(cells: Three<'_>, first: &[u8], second: &[u8], third: &[u8]) -> bool
    ensures { result ≡ are_words cells.entry first.now second.now third.now }
{
    cells.first == first && cells.second == second && cells.third == third
}

/// The rows below the header of a sheet.
///
/// # Errors
///
/// 18, with row 1, for another first row.
#[tactic(auto, unfolding(crate::specs::Rows::behind_header))]
pub fn read_header(sheet: &[u8]) -> Result<Rows<'_>, Refusal>
    ensures { result ≡ and_then (behind_header sheet.entry) (λ bytes. Ok (record { bytes = bytes })) }
{
    match read_cells(sheet) {
        Some(cells) if is_header(&cells) => Ok(Rows {
            bytes: cells.strings.rest,
        }),
        _ => Err(Refusal::BadSheet { row: 1, column: 0 }),
    }
}

// The cells of the first row of some bytes, or its first bad column.
#[tactic(auto, unfolding(crate::specs::Rows::line_of))]
fn read_row(bytes: &[u8]) -> Result<Cells<'_>, usize>
    ensures { result ≡ and_then (line_of bytes.entry) (λ line. Ok line.cells) }
{
    let cells = read_cells(bytes).ok_or(0_usize)?;
    read_numbers(&cells)?;
    Ok(cells)
}

fn check_rows(rows: Rows<'_>) -> Result<Extent, Refusal>
    ensures { result ≡ and_then (lines_from (length rows.entry.bytes.now) 2 rows.entry.bytes) (λ lines. Ok (extent_of lines)) }
{
    let mut left = rows;
    let mut row = 2;
    let mut extent = Extent {
        rows: 0,
        bytes: 0,
        longest: 0,
    };
    while !left.bytes.is_empty() {
        match read_row(left.bytes) {
            Ok(cells) => {
                extent = with_row(extent, cells.kinds.rest, &cells.strings);
                left = Rows {
                    bytes: cells.strings.rest,
                }
            }
            Err(column) => return Err(Refusal::BadSheet { row, column }),
        }
        row += 1;
    }
    Ok(extent)
}

/// Refuses a sheet for its first row with a fault, or tells how much its rows are.
///
/// # Errors
///
/// 18: with column 0 for a row of the wrong shape, else with the first column whose cell is bad.
#[tactic(auto, unfolding(crate::specs::Rows::lines_of))]
pub fn check(sheet: &[u8]) -> Result<Extent, Refusal>
    ensures { result ≡ and_then (lines_of sheet.entry) (λ lines. Ok (extent_of lines)) }
{
    check_rows(read_header(sheet)?)
}

// The theorems. Each is the contract of a function that does nothing, so that none goes unnoticed if its proof does.

/// Of bytes that begin with a row of nine cells, as they stand between commas with or without quotes, these cells are read; of others
/// none are.
pub fn rows_meant()
    ensures { RowsMeant }
{}

/// A cell has a number, up to some most, exactly where it is zeros, as many as there are, and the number's figures.
pub fn numbers_meant()
    ensures { NumbersMeant }
{}

/// A sheet without a fault is the header and rows of nine cells, the first six of each with their numbers; another is refused at its
/// first fault, in the first row that has one: its shape, or else its first bad column.
pub fn sheets_meant()
    ensures { SheetsMeant }
{}

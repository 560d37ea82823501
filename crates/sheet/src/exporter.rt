//! The sheet of an upload.
#![tactic(auto)]

ghost use Rattle.std.specs.Prelude.{◌≡◌, ◌+◌, ◌≤◌, ◌++◌, Ok, length};
ghost use Rattle.le.specs.Put.{put};
ghost use Rattle.part.specs.Outcome.{and_then};
ghost use Rattle.refusal.specs.Refusal.{limit};
ghost use Rattle.refusal.specs.declared.Mode.TheVariants.{Present};
ghost use Rattle.walk.specs.Pieces.{pieces};
ghost use Rattle.writing.specs.Writing.{Writes};
ghost use Rattle.symbol.specs.Symbol.{symbol_of};
ghost use Rattle.sheet.specs.Cells.{header, sheet_text};
ghost use Rattle.sheet.specs.Export.{is_whole, admitted, rows_of, pieces_text, exporting};

use crate::cells;
use refusal::{LIMIT, Mode, Refusal};
use symbol::{AdsSymbolInfo, Symbols};

// The first row, with its CRLF.
const HEADER: &[u8; 56] = b"group,offset,size,type id,flags,high,name,type,comment\r\n";

// Why a symbol is not in a sheet, as refusal 17 tells it.
const GUID: usize = 1;

const ATTRIBUTES: usize = 2;

const EXTENDED_FLAGS: usize = 3;

const NOT_WHOLE: usize = 5;

// Whether the end bytes of a symbol's strings are 0, and none of its bytes is unread.
fn is_whole(own: &[u8], symbol: &AdsSymbolInfo<'_>) -> bool
    requires { 33 + length symbol.now.name.now + length symbol.now.type_name.now + length symbol.now.comment.now ≤ length own.now }
    ensures { result ≡ is_whole own.now symbol.now }
{
    if !symbol.unread.is_empty() {
        return false;
    }
    let (name, type_name) = (symbol.name.len(), symbol.type_name.len());
    layout::check_string_ends(
        own,
        AdsSymbolInfo::MIN_LENGTH,
        name,
        type_name,
        symbol.comment.len(),
    )
    .is_ok()
}

// Refuses, with 17, a symbol that a sheet does not hold.
#[tactic(auto, unfolding(crate::specs::Export::admitted))]
fn check_symbol(own: &[u8], entry: usize, symbol: &AdsSymbolInfo<'_>) -> Result<(), Refusal>
    requires { 33 + length symbol.now.name.now + length symbol.now.type_name.now + length symbol.now.comment.now ≤ length own.now }
    ensures { result ≡ admitted entry own.now symbol.now }
{
    let flags = symbol.flags;
    let reason = if flags.has_type_guid() {
        GUID
    } else if flags.has_attributes() {
        ATTRIBUTES
    } else if flags.has_extended_flags() {
        EXTENDED_FLAGS
    } else if is_whole(own, symbol) {
        return Ok(());
    } else {
        NOT_WHOLE
    };
    Err(Refusal::NotInSheet { entry, reason })
}

// How many bytes the sheet of an upload takes, or the first refusal of its entries.
fn sheet_size(upload: &[u8]) -> Result<usize, Refusal>
    requires { length upload.now ≤ limit }
    ensures { result ≡ and_then (rows_of upload.entry) (λ rows. Ok (length (sheet_text rows))) }
{
    let mut size = HEADER.len();
    let mut entry = 0;
    for piece in Symbols::new(upload, Mode::Present) {
        let symbol = piece.answer?;
        check_symbol(&upload[piece.start..piece.end], entry, &symbol)?;
        size += cells::row_size(&symbol);
        entry += 1;
    }
    Ok(size)
}

// The buffer is known to have room.
fn put_sheet(upload: &[u8], out: &mut [u8])
    requires { length (header ++ pieces_text (pieces (symbol_of Present) upload)) ≤ length out.old }
    ensures { out.new ≡ put out.old 0 (header ++ pieces_text (pieces (symbol_of Present) upload.entry)) }
{
    let mut at = le::put_bytes(out, 0, HEADER);
    for piece in Symbols::new(upload, Mode::Present) {
        if let Ok(symbol) = piece.answer {
            at = cells::put_row(out, at, &symbol);
        }
    }
}

/// Writes the sheet of an upload of symbols, and gives how many bytes it has. The upload is walked twice: first its
/// refusals are looked for and the bytes counted, then they are written.
///
/// # Errors
///
/// 5 above the limit; at the first entry that has one, its reading refusal in the present mode, or 10, or 17; then 6.
pub fn export(upload: &[u8], out: &mut [u8]) -> Result<usize, Refusal>
    ensures { Writes (exporting upload.entry) out.old out.new result }
{
    let length = upload.len();
    if length > LIMIT {
        return Err(Refusal::TooLarge { length });
    }
    let needed = sheet_size(upload)?;
    let lent = out.len();
    if lent < needed {
        return Err(Refusal::OutputTooSmall { needed, lent });
    }
    put_sheet(upload, out);
    Ok(needed)
}

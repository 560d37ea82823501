//! Captures: an upload as lines of hexadecimal digits, one for each of its pieces, and back (docs/FORMAT.md, "Captures").
#![tactic(auto)]

ghost use Rattle.std.specs.Prelude.{◌≡◌, ◌+◌, ◌<◌, ◌≤◌, IfOk, IsOkAnd, MatchResult, Ok, drop, length};
ghost use Rattle.le.specs.Put.{put, Wrote};
ghost use Rattle.hex.specs.Hex.{decode_of};
ghost use Rattle.entry.specs.Walk.{steps};
ghost use Rattle.writing.specs.Owned.{NotWritten};
ghost use Rattle.writing.specs.Writing.{Writes};
ghost use Rattle.captures.specs.Meaning.{SplitMeant, JoinMeant, RoundTrips};
ghost use Rattle.captures.specs.Captures.{line, lines, text_of, piece_bytes, splitting, spelt, told_length, joined, joining};

mod digits;

use memchr::memchr;
use refusal::{LIMIT, Mode, Refusal};
use std::alloc::Allocator;
use walk::{Unread, Walker};
use writing::WriteError;

// What ends a line.
const END: u8 = b'\n';

fn count_pieces(upload: &[u8]) -> usize
    ensures { result ≡ length (steps upload.now) }
{
    let mut count = 0;
    for _piece in Walker::<Unread>::new(upload, Mode::Present) {
        count += 1;
    }
    count
}

fn put_line(text: &mut [u8], at: usize, bytes: &[u8]) -> usize
    requires { at + length (line bytes.now) ≤ length text.old }
    ensures { Wrote text.old at (line bytes.now) text.new result }
{
    let end = digits::put_digits(text, at, bytes);
    le::put_u8(text, end, END)
}

// The text is known to have room.
fn put_lines(upload: &[u8], text: &mut [u8])
    requires { length (text_of (piece_bytes upload.now)) ≤ length text.old }
    ensures { text.new ≡ put text.old 0 (text_of (piece_bytes upload.now)) }
{
    let mut at = 0;
    for piece in Walker::<Unread>::new(upload, Mode::Present) {
        at = put_line(text, at, &upload[piece.start..piece.end]);
    }
}

// How many bytes the lines of an upload are.
fn text_length(upload: &[u8]) -> Result<usize, Refusal>
    ensures { result ≡ told_length (splitting upload.now) }
{
    let length = upload.len();
    if length > LIMIT {
        return Err(Refusal::TooLarge { length });
    }
    Ok(2 * length + count_pieces(upload))
}

/// Splits an upload into lines, and gives how many bytes they are. Where its pieces begin and end depends on claims
/// alone, whatever the kind of its entries.
///
/// # Errors
///
/// 5 above the limit, then 6.
pub fn split(upload: &[u8], text: &mut [u8]) -> Result<usize, Refusal>
    ensures { Writes (splitting upload.now) text.old text.new result }
{
    let needed = text_length(upload)?;
    let lent = text.len();
    if lent < needed {
        return Err(Refusal::OutputTooSmall { needed, lent });
    }
    put_lines(upload, text);
    Ok(needed)
}

/// The lines of an upload, in memory of their own.
///
/// # Errors
///
/// 5 above the limit, and that there is no memory for them.
pub fn split_to_vec<A: Allocator>(alloc: A, upload: &[u8]) -> Result<Vec<u8, A>, WriteError>
    ensures { MatchResult result (λ v. splitting upload.now ≡ Ok v.items) (NotWritten (splitting upload.now)) }
{
    let length = text_length(upload)?;
    let mut text = vec![in alloc; 0; length]?;
    split(upload, &mut text)?;
    Ok(text)
}

// What stands behind a line that ends at a place.
fn behind(text: &[u8], end: usize) -> &[u8]
    requires { end < length text.now }
    ensures { result.now ≡ drop (end + 1) text.now }
{
    &text[end + 1..]
}

// How many bytes a line spells.
fn line_length(digits: &[u8]) -> Result<usize, Refusal>
    ensures { result ≡ told_length (spelt (decode_of digits.now)) }
{
    if !digits::are_pairs(digits) {
        return Err(Refusal::BadHexadecimal);
    }
    Ok(digits.len() / 2)
}

// How many bytes the lines of a text spell.
fn spelt_length(text: &[u8]) -> Result<usize, Refusal>
    ensures { result ≡ told_length (joined (lines text.now)) }
{
    let mut length = 0;
    let mut rest = text;
    while let Some(end) = memchr(END, rest) {
        length += line_length(&rest[..end])?;
        rest = behind(rest, end);
    }
    Ok(length + line_length(rest)?)
}

// The same, within the limit.
fn upload_length(text: &[u8]) -> Result<usize, Refusal>
    ensures { result ≡ told_length (joining text.now) }
{
    let length = spelt_length(text)?;
    writing::check_size(length)?;
    Ok(length)
}

// The text is known to be lines of digits, and the upload to have room for their bytes.
fn put_upload(text: &[u8], upload: &mut [u8])
    requires { IsOkAnd (joined (lines text.now)) (λ bytes. length bytes ≤ length upload.old) }
    ensures { IfOk (joined (lines text.now)) (λ bytes. upload.new ≡ put upload.old 0 bytes) }
{
    let mut at = 0;
    let mut rest = text;
    while let Some(end) = memchr(END, rest) {
        at = digits::put_spelt(upload, at, &rest[..end]);
        rest = behind(rest, end);
    }
    digits::put_spelt(upload, at, rest);
}

/// Joins lines to an upload, and gives how many bytes it has. The whole text is looked at before a byte is written.
///
/// # Errors
///
/// 12 for a line that is not pairs of digits, then 5 and 6 for the upload.
pub fn join(text: &[u8], upload: &mut [u8]) -> Result<usize, Refusal>
    ensures { Writes (joining text.now) upload.old upload.new result }
{
    let needed = upload_length(text)?;
    let lent = upload.len();
    if lent < needed {
        return Err(Refusal::OutputTooSmall { needed, lent });
    }
    put_upload(text, upload);
    Ok(needed)
}

/// The upload of some lines, in memory of its own.
///
/// # Errors
///
/// 12 for a line that is not pairs of digits, 5 above the limit, and that there is no memory for it.
pub fn join_to_vec<A: Allocator>(alloc: A, text: &[u8]) -> Result<Vec<u8, A>, WriteError>
    ensures { MatchResult result (λ v. joining text.now ≡ Ok v.items) (NotWritten (joining text.now)) }
{
    let length = upload_length(text)?;
    let mut upload = vec![in alloc; 0; length]?;
    join(text, &mut upload)?;
    Ok(upload)
}

// The theorems. Each is the contract of a function that does nothing, so that none goes unnoticed if its proof does.

/// An upload above the limit is refused by 5; within it its lines are written, and no others: a line for each whole entry,
/// and one for all that is left where none begins.
pub fn split_meant()
    ensures { SplitMeant }
{}

/// A text that is not LFs and pairs of digits is refused by 12; else 5 above the limit; else the bytes that it spells are
/// written, and no others.
pub fn join_meant()
    ensures { JoinMeant }
{}

/// An upload that is split and joined is the same bytes; whole entries in capitals that are joined and split are the same
/// lines.
pub fn round_trips()
    ensures { RoundTrips }
{}

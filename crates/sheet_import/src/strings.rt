//! The strings of cells.

ghost use Rattle.std.specs.Prelude.{◌≡◌, ◌+◌, ◌≤◌, length};
ghost use Rattle.le.specs.Put.{Wrote};
ghost use Rattle.sheet_import.specs.Strings.{IsText, IsCellText, bytes_of, string_of};

use memchr::memchr;

// What stands twice in a cell.
const QUOTE: u8 = b'"';

/// How many bytes the string of a cell has.
pub fn string_length(text: &[u8]) -> usize
    requires { IsCellText text.now }
    ensures { result ≡ length (string_of text.now) }
{
    match text::encoded_length(text) {
        Ok(length) => sheet_rows::text_length(text) - (text.len() - length),
        Err(_) => unreachable!(),
    }
}

// Writes the bytes of a text at a place.
fn put_text(out: &mut [u8], at: usize, text: &[u8]) -> usize
    requires text { IsText text.now }
    requires short { length (bytes_of text.now) ≤ 65535 }
    requires room { at + length (bytes_of text.now) ≤ length out.old }
    ensures { Wrote out.old at (bytes_of text.now) out.new result }
{
    match text::encode(text, &mut out[at..]) {
        Ok(written) => at + written,
        Err(_) => unreachable!(),
    }
}

/// Writes the string of a cell at a place that has room for it, and gives the place after it.
pub fn put_string(out: &mut [u8], at: usize, text: &[u8]) -> usize
    requires text { IsCellText text.now }
    requires short { length (string_of text.now) ≤ 65535 }
    requires room { at + length (string_of text.now) ≤ length out.old }
    ensures { Wrote out.old at (string_of text.now) out.new result }
{
    let mut next = at;
    let mut left = text;
    while let Some(quote) = memchr(QUOTE, left) {
        next = put_text(out, next, part::part_of(left, 0, quote + 1));
        left = part::rest_of(left, quote + 2);
    }
    put_text(out, next, left)
}

//! Windows-1252 bytes to UTF-8 text (docs/FORMAT.md, "Text").

ghost use Rattle.std.specs.Prelude.{◌≡◌, ◌+◌, ◌≤◌, length, take, encode_utf8, eqb, if◌then◌else◌};
ghost use Rattle.std.specs.Int.Bits.{bit_and};
ghost use Rattle.le.specs.Put.{Wrote};
ghost use Rattle.refusal.specs.Refusal.{limit};
ghost use Rattle.writing.specs.Writing.{Writes};
ghost use Rattle.text.specs.Text.{points, code_point, decoded, decoding};

use crate::{POINTS, highest, put_same};
use refusal::{LIMIT, Refusal};

// 1 for a byte that has this value under a mask, else 0.
fn one_like(b: u8, mask: u8, value: u8) -> u8
    ensures { (result ≡ (if eqb (bit_and b mask) value then 1 else 0)) × (result ≤ 1) }
{
    if b & mask == value { 1 } else { 0 }
}

/// How many bytes the text of a byte takes.
// One, one more from 80 on, and one more for the bytes whose code point is above 7FF, 84 to 87
// and 94 to 97; 89, 8B, 99 and 9B; 80 and 82; 91 and 93; 92. By comparisons and not by a copy of the table, so that the
// compiler takes many bytes at once and little stack is used.
pub fn byte_width(b: u8) -> u8
    ensures { (result ≡ length (encode_utf8 (code_point b))) × (result ≤ 3) }
{
    let most = one_like(b, 0xEC, 0x84) + one_like(b, 0xED, 0x89);
    let rest = one_like(b, 0xFD, 0x80) + one_like(b, 0xFD, 0x91) + one_like(b, 0xFF, 0x92);
    1 + one_like(b, 0x80, 0x80) + most + rest
}

// A code point above 7F at a place.
fn put_point(out: &mut [u8], at: usize, p: u16) -> usize
    requires le_p { 0x80 ≤ p }
    requires p_in_bounds { at + length (encode_utf8 p) ≤ length out.old }
    ensures { Wrote out.old at (encode_utf8 p) out.new result }
{
    if p < 0x800 {
        out[at] = (0xC0 + p / 64) as u8;
        out[at + 1] = (0x80 + p % 64) as u8;
        return at + 2;
    }
    out[at] = (0xE0 + p / 4096) as u8;
    out[at + 1] = (0x80 + p / 64 % 64) as u8;
    out[at + 2] = (0x80 + p % 64) as u8;
    at + 3
}

// The three ways write apart, so that only the bytes 80 to 9F look at the table and at their width.
fn put_byte(out: &mut [u8], at: usize, table: &[u16; 32], b: u8) -> usize
    requires table_value { table.now ≡ points }
    requires b_in_bounds { at + length (encode_utf8 (code_point b)) ≤ length out.old }
    ensures { Wrote out.old at (encode_utf8 (code_point b)) out.new result }
{
    if b < 0x80 {
        return le::put_u8(out, at, b);
    }
    if 0xA0 <= b {
        return put_point(out, at, b as u16);
    }
    let i = (b - 0x80) as usize;
    put_point(out, at, table[i])
}

/// Writes the text of a byte at a place that has room for it, and gives the place after it.
#[tactic(auto, unfolding(crate::specs::Text::points))]
pub fn put_text(out: &mut [u8], at: usize, byte: u8) -> usize
    requires { at + length (encode_utf8 (code_point byte)) ≤ length out.old }
    ensures { Wrote out.old at (encode_utf8 (code_point byte)) out.new result }
{
    put_byte(out, at, &POINTS, byte)
}

// How many bytes the text of so many bytes from a place on takes.
fn widths_of(s: &[u8], from: usize, count: usize) -> u8
    requires { (from + count ≤ length s.now) × (count ≤ 16) }
    ensures { length (decoded (take from s.now)) + result ≡ length (decoded (take (from + count) s.now)) }
{
    let mut n: u8 = 0;
    let mut i: usize = 0;
    while i < count {
        n += byte_width(s[from + i]);
        i += 1;
    }
    n
}

// How many bytes the text of a byte string takes, sixteen bytes at a time: their sum is a byte, so that the compiler adds up all at once.
fn decoded_length(src: &[u8]) -> usize
    requires { length src.now ≤ limit }
    ensures { result ≡ length (decoded src.now) }
{
    let mut n: usize = 0;
    let mut at: usize = 0;
    while 16 <= src.len() - at {
        n += widths_of(src, at, 16) as usize;
        at += 16;
    }
    n + widths_of(src, at, src.len() - at) as usize
}

fn put_decoded(src: &[u8], out: &mut [u8]) -> usize
    requires { length (decoded src.now) ≤ length out.old }
    ensures { Wrote out.old 0 (decoded src.now) out.new result }
{
    let mut at: usize = 0;
    let mut i: usize = 0;
    while i < src.len() {
        at = put_byte(out, at, &POINTS, src[i]);
        i += 1;
    }
    at
}

/// Windows-1252 bytes to UTF-8 text. Refuses with 5 above the limit, and then with 6.
pub fn decode(src: &[u8], out: &mut [u8]) -> Result<usize, Refusal>
    ensures { Writes (decoding src.now) out.old out.new result }
{
    if LIMIT < src.len() {
        return Err(Refusal::TooLarge { length: src.len() });
    }
    if highest(src) < 0x80 {
        return put_same(src, out);
    }
    // No byte takes more than three: where so much is lent, the count would only cost time.
    if src.len() * 3 <= out.len() {
        return Ok(put_decoded(src, out));
    }
    let needed = decoded_length(src);
    if out.len() < needed {
        return Err(Refusal::OutputTooSmall {
            needed,
            lent: out.len(),
        });
    }
    Ok(put_decoded(src, out))
}

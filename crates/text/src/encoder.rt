//! UTF-8 text to Windows-1252 bytes (docs/FORMAT.md, "Text").

ghost use Rattle.std.specs.Prelude.{◌≡◌, ◌+◌, ◌≤◌, ◌<◌, length, take, drop, get_or, ltb, Ok, if◌then◌else◌};
ghost use Rattle.std.specs.Option.{unwrap_or};
ghost use Rattle.writing.specs.Writing.{Writes};
ghost use Rattle.text.specs.Text.{byte_of, encoded_from, counted, encoding, Leads, fault_kind};

use crate::{POINTS, highest, put_same};
use refusal::{LIMIT, Refusal};
use std::str;

fn if_here(here: bool, byte: u16) -> u16
    ensures { (result ≡ (if here then byte else 0)) × (result ≤ byte) }
{
    if here { byte } else { 0 }
}

// The byte of a code point above 7F, or 0. One that is not its own byte is looked for at all 32 places of the table, so that the compiler
// takes many at once: no code point stands there twice, so the sum is the byte of the one that is equal. All places are known, so
// that no copy of the table is made.
fn byte_of(p: u16) -> u16
    requires { 0x80 ≤ p }
    ensures { result ≡ unwrap_or (byte_of p) 0 }
{
    if 0xA0 <= p {
        if p < 0x100 {
            return p;
        }
    }
    let table = POINTS;
    let mut sum: u16 = 0;
    let mut byte: u16 = 0x80;
    let mut i: usize = 0;
    while i < 32 {
        sum += if_here(table[i] == p, byte);
        byte += 1;
        i += 1;
    }
    sum
}

// The byte of the character at a place, or 0 where Windows-1252 has none. Above 7F its characters take two bytes, or three from E2 on.
fn byte_at(s: &[u8], at: usize) -> u16
    requires { (at < length s.now) × (0x80 ≤ get_or s.now at 0) }
    ensures { Leads (drop at s.now) result }
{
    let left = s.len() - at;
    if left < 2 {
        return 0;
    }
    let first = s[at];
    let second = s[at + 1];
    if second / 64 != 2 {
        return 0;
    }
    if first < 0xC2 {
        return 0;
    }
    if first < 0xE0 {
        return byte_of((first % 32) as u16 * 64 + (second % 64) as u16);
    }
    if first != 0xE2 {
        return 0;
    }
    if left < 3 {
        return 0;
    }
    let third = s[at + 2];
    if third / 64 != 2 {
        return 0;
    }
    byte_of(0x2000 + (second % 64) as u16 * 64 + (third % 64) as u16)
}

// How many bytes a character of Windows-1252 above 7F takes, by the first of them.
fn width_of(first: u8) -> usize
    ensures { result ≡ (if ltb first 0xE0 then 2 else 3) }
{
    if first < 0xE0 { 2 } else { 3 }
}

// The four bytes from a place on, or those that are left.
fn first_four(s: &[u8], at: usize) -> &[u8]
    requires { at < length s.now }
    ensures { result.now ≡ take 4 (drop at s.now) }
{
    if s.len() - at < 4 {
        return &s[at..];
    }
    &s[at..at + 4]
}

// Why Windows-1252 has no character at a place. No character takes more than four bytes, so they show whether one stands there.
fn fault_at(s: &[u8], at: usize) -> usize
    requires { at < length s.now }
    ensures { result ≡ fault_kind (drop at s.now) }
{
    match str::from_utf8(first_four(s, at)) {
        Err(fault) if fault.valid_up_to() == 0 => 1,
        _ => 2,
    }
}

/// How many bytes a text takes in Windows-1252, or its first fault (11). It has no limit.
pub fn encoded_length(src: &[u8]) -> Result<usize, Refusal>
    ensures { result ≡ counted 0 (encoded_from 0 src.now) }
{
    let mut n: usize = 0;
    let mut at: usize = 0;
    while at < src.len() {
        let first = src[at];
        if first < 0x80 {
            at += 1;
        } else {
            if byte_at(src, at) == 0 {
                return Err(Refusal::BadText {
                    place: at,
                    kind: fault_at(src, at),
                });
            }
            at += width_of(first);
        }
        n += 1;
    }
    Ok(n)
}

// The bytes of a text that was counted, and so has no fault.
fn put_encoded(src: &[u8], out: &mut [u8], needed: usize) -> Result<usize, Refusal>
    requires { counted 0 (encoded_from 0 src.now) ≡ Ok needed }
    ensures { Writes (encoded_from 0 src.now) out.old out.new result }
{
    if out.len() < needed {
        return Err(Refusal::OutputTooSmall {
            needed,
            lent: out.len(),
        });
    }
    let mut n: usize = 0;
    let mut at: usize = 0;
    while at < src.len() {
        let first = src[at];
        if first < 0x80 {
            out[n] = first;
            at += 1;
        } else {
            out[n] = byte_at(src, at) as u8;
            at += width_of(first);
        }
        n += 1;
    }
    Ok(n)
}

/// UTF-8 text to Windows-1252 bytes. Refuses with 5 above the limit, with 11 at the first fault of the text, and then with 6.
pub fn encode(src: &[u8], out: &mut [u8]) -> Result<usize, Refusal>
    ensures { Writes (encoding src.now) out.old out.new result }
{
    if LIMIT < src.len() {
        return Err(Refusal::TooLarge { length: src.len() });
    }
    if highest(src) < 0x80 {
        return put_same(src, out);
    }
    // A fault is looked for in the whole text before the room is.
    let needed = encoded_length(src)?;
    put_encoded(src, out, needed)
}

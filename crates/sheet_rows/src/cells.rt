//! The cells of a row.

ghost use Rattle.std.specs.Prelude.{◌≡◌, ◌+◌, ◌<◌, ◌≤◌, IfSome, eqb, get_or, length, map, not, true};
ghost use Rattle.std.specs.List.{prefix_len};
ghost use Rattle.std.specs.Simd.Lanes.{chunk, mask_l};
ghost use Rattle.sheet.specs.Cells.{is_special};
ghost use Rattle.sheet_rows.specs.Cells.{plain_length, quoted_length, cell_of, feed_at, behind_end, ended_cell, three_of, cells_of};

use std::simd::prelude::*;

/// A cell and what stands behind it: its text, in which each quote stands twice.
#[derive(Clone, Copy)]
pub struct Cell<'a> {
    /// What stands in the cell, without the quotes around it.
    pub text: &'a [u8],
    /// What stands behind it.
    pub rest: &'a [u8],
}

/// The texts of three cells, and what stands behind the last and its end.
#[derive(Clone, Copy)]
pub struct Three<'a> {
    pub first: &'a [u8],
    pub second: &'a [u8],
    pub third: &'a [u8],
    pub rest: &'a [u8],
}

/// The texts of the nine cells of a row.
#[derive(Clone, Copy)]
pub struct Cells<'a> {
    /// Index group, index offset and size.
    pub places: Three<'a>,
    /// The number of the type, the flags, and the two bytes after them.
    pub kinds: Three<'a>,
    /// Name, type and comment; what stands behind them is what stands behind the row.
    pub strings: Three<'a>,
}

/// What ends a cell.
#[derive(Clone, Copy)]
pub enum End {
    Comma,
    Row,
}

// Whether a byte stands at a place.
fn stands(bytes: &[u8], at: usize, byte: u8) -> bool
    requires { 0 < byte }
    ensures { result ≡ eqb (get_or bytes.now at 0) byte }
{
    at < bytes.len() && bytes[at] == byte
}

// Bit k is 1 where byte k is a comma, a quote, CR or LF.
#[inline(always)]
fn specials(bytes: u8x16) -> u64
    ensures { result ≡ mask_l (map is_special bytes) }
{
    (bytes.simd_eq(u8x16::splat(b','))
        | bytes.simd_eq(u8x16::splat(b'"'))
        | bytes.simd_eq(u8x16::splat(b'\r'))
        | bytes.simd_eq(u8x16::splat(b'\n'))).to_bitmask()
}

// How many of sixteen bytes from a place on stand before the first of these, or 16.
#[inline(always)]
fn plain_among(bytes: &[u8], at: usize) -> usize
    requires { at + 16 ≤ length bytes.now }
    ensures { result ≡ prefix_len (λ b. not (is_special b)) (chunk at 16 bytes.now) }
{
    let special = specials(u8x16::from_slice(&bytes[at..]));
    if special == 0 {
        16
    } else {
        special.trailing_zeros() as usize
    }
}

// How many bytes stand before the first of these, one byte after the other.
#[tactic(auto, using(crate::proofs::Lengths::plain_stops, crate::proofs::Lengths::plain_goes_on, crate::proofs::Lengths::plain_end))]
fn plain_by_bytes(bytes: &[u8]) -> usize
    ensures value { result ≡ plain_length bytes.now }
    ensures within { result ≤ length bytes.now }
{
    for (at, byte) in bytes.iter().enumerate() {
        if sheet::is_special(*byte) {
            return at;
        }
    }
    bytes.len()
}

// The same, sixteen bytes at a time.
#[inline(always)]
fn plain_length(bytes: &[u8]) -> usize
    ensures value { result ≡ plain_length bytes.now }
    ensures within { result ≤ length bytes.now }
{
    let mut at = 0;
    while 16 <= bytes.len() - at {
        let plain = plain_among(bytes, at);
        if plain < 16 {
            return at + plain;
        }
        at += 16;
    }
    at + plain_by_bytes(part::rest_of(bytes, at))
}

// How many bytes stand before the quote that closes a cell.
#[tactic(auto, using(crate::proofs::Lengths::quoted_stops, crate::proofs::Lengths::quoted_goes_on, crate::proofs::Lengths::quoted_pairs, crate::proofs::Lengths::quoted_end, crate::proofs::Lengths::behind_none, crate::proofs::Lengths::inside))]
fn quoted_length(bytes: &[u8]) -> Option<usize>
    ensures value { result ≡ quoted_length bytes.now }
    ensures within { IfSome result (λ n. n < length bytes.now) }
{
    let mut at = 0;
    while at < bytes.len() {
        if bytes[at] != b'"' {
            at += 1;
        } else if stands(bytes, at + 1, b'"') {
            at += 2;
        } else {
            return Some(at);
        }
    }
    None
}

#[tactic(auto, unfolding(crate::specs::Cells::cell_of))]
fn quoted_cell(bytes: &[u8]) -> Option<Cell<'_>>
    requires { eqb (get_or bytes.now 0 0) 34 ≡ true }
    ensures { result ≡ cell_of bytes.entry }
{
    let length = quoted_length(part::rest_of(bytes, 1))?;
    let text = part::part_of(bytes, 1, length);
    let rest = part::rest_of(bytes, length + 2);
    Some(Cell { text, rest })
}

// The cell that some bytes begin with.
#[inline(always)]
#[tactic(auto, unfolding(crate::specs::Cells::cell_of))]
fn first_cell(bytes: &[u8]) -> Option<Cell<'_>>
    ensures { result ≡ cell_of bytes.entry }
{
    if stands(bytes, 0, b'"') {
        return quoted_cell(bytes);
    }
    let length = plain_length(bytes);
    let text = part::part_of(bytes, 0, length);
    let rest = part::rest_of(bytes, length);
    Some(Cell { text, rest })
}

// What stands behind an LF at a place.
fn behind_feed(bytes: &[u8], at: usize) -> Option<&[u8]>
    ensures { result ≡ feed_at bytes.entry at }
{
    if stands(bytes, at, b'\n') {
        return Some(part::rest_of(bytes, at + 1));
    }
    None
}

// What stands behind an end that some bytes begin with.
#[inline(always)]
#[tactic(auto, unfolding(crate::specs::Cells::behind_end))]
fn behind_end(end: End, bytes: &[u8]) -> Option<&[u8]>
    ensures { result ≡ behind_end end bytes.entry }
{
    match end {
        End::Comma => {
            if stands(bytes, 0, b',') {
                return Some(part::rest_of(bytes, 1));
            }
            None
        }
        End::Row => {
            if bytes.is_empty() {
                return Some(bytes);
            }
            if stands(bytes, 0, b'\r') {
                return behind_feed(bytes, 1);
            }
            behind_feed(bytes, 0)
        }
    }
}

#[inline(always)]
#[tactic(auto, unfolding(crate::specs::Cells::ended_cell))]
fn ended_cell(end: End, bytes: &[u8]) -> Option<Cell<'_>>
    ensures { result ≡ ended_cell end bytes.entry }
{
    let cell = first_cell(bytes)?;
    let rest = behind_end(end, cell.rest)?;
    Some(Cell {
        text: cell.text,
        rest,
    })
}

#[inline(always)]
#[tactic(auto, unfolding(crate::specs::Cells::three_of))]
fn three_cells(end: End, bytes: &[u8]) -> Option<Three<'_>>
    ensures { result ≡ three_of end bytes.entry }
{
    let first = ended_cell(End::Comma, bytes)?;
    let second = ended_cell(End::Comma, first.rest)?;
    let third = ended_cell(end, second.rest)?;
    Some(Three {
        first: first.text,
        second: second.text,
        third: third.text,
        rest: third.rest,
    })
}

/// The cells of the row that some bytes begin with, if it has nine.
#[inline(always)]
#[tactic(auto, unfolding(crate::specs::Cells::cells_of))]
pub fn read_cells(bytes: &[u8]) -> Option<Cells<'_>>
    ensures { result ≡ cells_of bytes.entry }
{
    let places = three_cells(End::Comma, bytes)?;
    let kinds = three_cells(End::Comma, places.rest)?;
    let strings = three_cells(End::Row, kinds.rest)?;
    Some(Cells {
        places,
        kinds,
        strings,
    })
}

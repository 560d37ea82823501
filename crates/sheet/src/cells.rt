//! The cells and rows of a sheet, written at a place of a lent buffer.
#![tactic(auto, unfolding(crate::specs::Cells::numbers_text, crate::specs::Cells::strings_text, crate::specs::Cells::row_text))]

ghost use Rattle.std.specs.Prelude.{◌≡◌, ◌+◌, ◌*◌, ◌≤◌, length, decimal, []};
ghost use Rattle.std.specs.List.{list_any};
ghost use Rattle.le.specs.Put.{Wrote};
ghost use Rattle.refusal.specs.Refusal.{limit};
ghost use Rattle.sheet.specs.Cells.{is_special, escaped, escaped_all, cell, number, numbers_text, strings_text, row_text};
ghost use Rattle.sheet.specs.Export.{HasShortStrings, row_of};

use layout::size_if;
use symbol::AdsSymbolInfo;

// How many digits a number has.
#[tactic(auto, using(std::proofs::lemmas::Fmt::decimal_digit, std::proofs::lemmas::Fmt::decimal_step))]
fn decimal_size(n: u32) -> usize
    ensures value { result ≡ length (decimal n) }
    ensures small { result ≤ 10 }
{
    if n < 10 {
        return 1;
    }
    decimal_size(n / 10) + 1
}

// Writes a number in decimal.
fn put_decimal(out: &mut [u8], at: usize, n: u32) -> usize
    requires { at + length (decimal n) ≤ length out.old }
    ensures { Wrote out.old at (decimal n) out.new result }
{
    let digit = b'0' + (n % 10) as u8;
    if n < 10 {
        return le::put_u8(out, at, digit);
    }
    let next = put_decimal(out, at, n / 10);
    le::put_u8(out, next, digit)
}

// Writes a number and a comma.
fn put_number(out: &mut [u8], at: usize, n: u32) -> usize
    requires { at + length (number n) ≤ length out.old }
    ensures { Wrote out.old at (number n) out.new result }
{
    let next = put_decimal(out, at, n);
    le::put_u8(out, next, b',')
}

fn escaped_size(byte: u8) -> usize
    ensures value { result ≡ length (escaped byte) }
    ensures small { result ≤ 3 }
{
    if byte == b'"' {
        return 2;
    }
    text::byte_width(byte) as usize
}

fn put_escaped(out: &mut [u8], at: usize, byte: u8) -> usize
    requires { at + length (escaped byte) ≤ length out.old }
    ensures { Wrote out.old at (escaped byte) out.new result }
{
    if byte == b'"' {
        return le::put_bytes(out, at, b"\"\"");
    }
    text::put_text(out, at, byte)
}

/// Whether a byte needs quotes around its cell: a comma, a quote, CR or LF.
pub fn is_special(byte: u8) -> bool
    ensures { result ≡ is_special byte }
{
    byte == b',' || byte == b'"' || byte == b'\r' || byte == b'\n'
}

// Whether a cell of some bytes stands between quotes.
fn needs_quotes(bytes: &[u8]) -> bool
    ensures { result ≡ list_any is_special bytes.now }
{
    bytes.iter().any(|byte| is_special(*byte))
}

fn cell_size(bytes: &[u8]) -> usize
    requires { length bytes.now ≤ limit }
    ensures value { result ≡ length (cell bytes.now) }
    ensures small { result ≤ 3 * limit + 2 }
{
    let mut size = size_if(needs_quotes(bytes), 2);
    for byte in bytes {
        size += escaped_size(*byte);
    }
    size
}

fn put_all_escaped(out: &mut [u8], at: usize, bytes: &[u8]) -> usize
    requires { at + length (escaped_all bytes.now) ≤ length out.old }
    ensures { Wrote out.old at (escaped_all bytes.now) out.new result }
{
    let mut next = at;
    for byte in bytes {
        next = put_escaped(out, next, *byte);
    }
    next
}

fn put_cell(out: &mut [u8], at: usize, bytes: &[u8]) -> usize
    requires { at + length (cell bytes.now) ≤ length out.old }
    ensures { Wrote out.old at (cell bytes.now) out.new result }
{
    if !needs_quotes(bytes) {
        return put_all_escaped(out, at, bytes);
    }
    let opened = le::put_u8(out, at, b'"');
    let end = put_all_escaped(out, opened, bytes);
    le::put_u8(out, end, b'"')
}

fn numbers_size(symbol: &AdsSymbolInfo<'_>) -> usize
    ensures value { result ≡ length (numbers_text (row_of symbol.now)) }
    ensures small { result ≤ 66 }
{
    let (group, offset) = (symbol.index_group, symbol.index_offset);
    let flags = symbol.flags;
    let places = decimal_size(group.0) + decimal_size(offset.0);
    let kinds = decimal_size(symbol.size) + decimal_size(symbol.data_type_id);
    let words = decimal_size(flags.0 as u32) + decimal_size(symbol.high as u32);
    places + kinds + words + 6
}

/// How many bytes the row of a symbol takes.
pub fn row_size(symbol: &AdsSymbolInfo<'_>) -> usize
    requires { HasShortStrings symbol.now }
    ensures value { result ≡ length (row_text (row_of symbol.now)) }
    ensures small { result ≤ 9 * limit + 76 }
{
    let strings = cell_size(symbol.name) + cell_size(symbol.type_name) + cell_size(symbol.comment);
    numbers_size(symbol) + strings + 4
}

fn put_numbers(out: &mut [u8], at: usize, symbol: &AdsSymbolInfo<'_>) -> usize
    requires { at + length (numbers_text (row_of symbol.now)) ≤ length out.old }
    ensures { Wrote out.old at (numbers_text (row_of symbol.now)) out.new result }
{
    let (group, offset) = (symbol.index_group, symbol.index_offset);
    let flags = symbol.flags;
    let a = put_number(out, at, group.0);
    let b = put_number(out, a, offset.0);
    let c = put_number(out, b, symbol.size);
    let d = put_number(out, c, symbol.data_type_id);
    let e = put_number(out, d, flags.0 as u32);
    put_number(out, e, symbol.high as u32)
}

fn put_strings(out: &mut [u8], at: usize, symbol: &AdsSymbolInfo<'_>) -> usize
    requires { at + length (strings_text (row_of symbol.now)) ≤ length out.old }
    ensures { Wrote out.old at (strings_text (row_of symbol.now)) out.new result }
{
    let a = put_cell(out, at, symbol.name);
    let b = le::put_u8(out, a, b',');
    let c = put_cell(out, b, symbol.type_name);
    let d = le::put_u8(out, c, b',');
    let e = put_cell(out, d, symbol.comment);
    le::put_bytes(out, e, b"\r\n")
}

/// Writes the row of a symbol at a place that has room for it, and gives the place after it.
pub fn put_row(out: &mut [u8], at: usize, symbol: &AdsSymbolInfo<'_>) -> usize
    requires { at + length (row_text (row_of symbol.now)) ≤ length out.old }
    ensures { Wrote out.old at (row_text (row_of symbol.now)) out.new result }
{
    let strings = put_numbers(out, at, symbol);
    put_strings(out, strings, symbol)
}

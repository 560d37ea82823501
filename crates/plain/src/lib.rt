//! Uploads in plain form: each entry is what the symbol writer gives for its record (docs/FORMAT.md, "Plain form").
#![tactic(auto)]

ghost use Rattle.std.specs.Prelude.{◌≡◌, ◌≤◌, length, IfErr};
ghost use Rattle.le.specs.Le.{bytes2, bytes4};
ghost use Rattle.writing.specs.Checks.{IsShort};
ghost use Rattle.writing.specs.Layout.{lengths_bytes, string_bytes, strings_bytes, attributes_bytes};
ghost use Rattle.symbol.specs.Writing.{numbers_bytes, header_bytes, guid_bytes, extended_bytes, sections_bytes, symbol_bytes};
ghost use Rattle.plain.specs.Plain.{along, IsInside, departing, plain_of};
ghost use Rattle.plain.specs.Form.{PlainInForm};
ghost use Rattle.plain.specs.Meaning.{DepartingMeant, PlainMeant, PlainPlaced, PlainFaithful, PlainChecked};

use refusal::{Mode, Refusal};
use symbol::{AdsSymbolInfo, NewSymbol};
use walk::Walker;

// The place behind some bytes that stand in an entry from a place on, or the first place at which they do not.
#[tactic(auto, using(crate::proofs::Parts::along_turn, crate::proofs::Parts::along_none))]
fn along(own: &[u8], at: usize, bytes: &[u8]) -> Result<usize, usize>
    requires { at ≤ length own.now }
    ensures value { result ≡ along own.now at bytes.now }
    ensures inside { IsInside own.now result }
{
    let mut at = at;
    for byte in bytes {
        if own.len() <= at || own[at] != *byte {
            return Err(at);
        }
        at += 1;
    }
    Ok(at)
}

// The same of the bytes of a number.
#[tactic(auto, using(crate::proofs::Parts::two_bytes))]
fn along_u16(own: &[u8], at: usize, number: u16) -> Result<usize, usize>
    requires { at ≤ length own.now }
    ensures value { result ≡ along own.now at (bytes2 number) }
    ensures inside { IsInside own.now result }
{
    along(own, at, &number.to_le_bytes())
}

#[tactic(auto, using(crate::proofs::Parts::four_bytes))]
fn along_u32(own: &[u8], at: usize, number: u32) -> Result<usize, usize>
    requires { at ≤ length own.now }
    ensures value { result ≡ along own.now at (bytes4 number) }
    ensures inside { IsInside own.now result }
{
    along(own, at, &number.to_le_bytes())
}

// The same of a string and its end byte.
#[tactic(auto, using(crate::proofs::Laid::string_along))]
fn along_string(own: &[u8], at: usize, string: &[u8]) -> Result<usize, usize>
    requires { at ≤ length own.now }
    ensures value { result ≡ along own.now at (string_bytes string.now) }
    ensures inside { IsInside own.now result }
{
    let end = along(own, at, string)?;
    along(own, end, &[0])
}

// The same of the numbers of a header, behind the entry's length.
#[tactic(auto, using(crate::proofs::Laid::numbers_along))]
fn along_numbers(own: &[u8], at: usize, symbol: &NewSymbol<'_>) -> Result<usize, usize>
    requires { at ≤ length own.now }
    ensures value { result ≡ along own.now at (numbers_bytes symbol.now) }
    ensures inside { IsInside own.now result }
{
    let (group, offset) = (symbol.index_group, symbol.index_offset);
    let flags = symbol.flags;
    let at = along_u32(own, at, group.0)?;
    let at = along_u32(own, at, offset.0)?;
    let at = along_u32(own, at, symbol.size)?;
    let at = along_u32(own, at, symbol.data_type_id)?;
    let at = along_u16(own, at, flags.0)?;
    along_u16(own, at, symbol.high)
}

// The same of the strings' lengths.
#[tactic(auto, using(crate::proofs::Laid::lengths_along))]
fn along_lengths(own: &[u8], at: usize, symbol: &NewSymbol<'_>) -> Result<usize, usize>
    requires short { IsShort symbol.now.name.now symbol.now.type_name.now symbol.now.comment.now }
    requires at_in_bounds { at ≤ length own.now }
    ensures value { result ≡ along own.now at (lengths_bytes symbol.now.name.now symbol.now.type_name.now symbol.now.comment.now) }
    ensures inside { IsInside own.now result }
{
    let at = along_u16(own, at, symbol.name.len() as u16)?;
    let at = along_u16(own, at, symbol.type_name.len() as u16)?;
    along_u16(own, at, symbol.comment.len() as u16)
}

#[tactic(auto, using(crate::proofs::Laid::header_along))]
fn along_header(own: &[u8], at: usize, symbol: &NewSymbol<'_>) -> Result<usize, usize>
    requires short { IsShort symbol.now.name.now symbol.now.type_name.now symbol.now.comment.now }
    requires at_in_bounds { at ≤ length own.now }
    ensures value { result ≡ along own.now at (header_bytes symbol.now) }
    ensures inside { IsInside own.now result }
{
    let at = along_numbers(own, at, symbol)?;
    along_lengths(own, at, symbol)
}

#[tactic(auto, using(crate::proofs::Laid::strings_along))]
fn along_strings(own: &[u8], at: usize, symbol: &NewSymbol<'_>) -> Result<usize, usize>
    requires { at ≤ length own.now }
    ensures value { result ≡ along own.now at (strings_bytes symbol.now.name.now symbol.now.type_name.now symbol.now.comment.now) }
    ensures inside { IsInside own.now result }
{
    let at = along_string(own, at, symbol.name)?;
    let at = along_string(own, at, symbol.type_name)?;
    along_string(own, at, symbol.comment)
}

#[tactic(auto, using(crate::proofs::Parts::along_empty))]
fn along_guid(own: &[u8], at: usize, guid: Option<[u8; 16]>) -> Result<usize, usize>
    requires { at ≤ length own.now }
    ensures value { result ≡ along own.now at (guid_bytes guid) }
    ensures inside { IsInside own.now result }
{
    match guid {
        Some(bytes) => along(own, at, &bytes),
        None => Ok(at),
    }
}

#[tactic(auto, using(crate::proofs::Laid::attributes_along, crate::proofs::Parts::along_empty))]
fn along_attributes(
    own: &[u8],
    at: usize,
    here: bool,
    count: usize,
    block: &[u8],
) -> Result<usize, usize>
    requires few { count ≤ 65535 }
    requires at_in_bounds { at ≤ length own.now }
    ensures value { result ≡ along own.now at (attributes_bytes here count block.now) }
    ensures inside { IsInside own.now result }
{
    if !here {
        return Ok(at);
    }
    let at = along_u16(own, at, count as u16)?;
    along(own, at, block)
}

#[tactic(auto, using(crate::proofs::Parts::along_empty))]
fn along_extended(own: &[u8], at: usize, here: bool, word: u32) -> Result<usize, usize>
    requires { at ≤ length own.now }
    ensures value { result ≡ along own.now at (extended_bytes here word) }
    ensures inside { IsInside own.now result }
{
    if here {
        return along_u32(own, at, word);
    }
    Ok(at)
}

#[tactic(auto, using(crate::proofs::Laid::sections_along))]
fn along_sections(own: &[u8], at: usize, symbol: &NewSymbol<'_>) -> Result<usize, usize>
    requires few { symbol.now.attributes.count ≤ 65535 }
    requires at_in_bounds { at ≤ length own.now }
    ensures value { result ≡ along own.now at (sections_bytes symbol.now) }
    ensures inside { IsInside own.now result }
{
    let flags = symbol.flags;
    let extended = symbol.extended_flags;
    let attributes = symbol.attributes;
    let chain = symbol.refactor_infos;
    let at = along_guid(own, at, symbol.guid)?;
    let here = flags.has_attributes();
    let at = along_attributes(own, at, here, attributes.count, attributes.bytes)?;
    let at = along_extended(own, at, flags.has_extended_flags(), extended.0)?;
    along(own, at, chain.bytes)
}

#[tactic(auto, using(crate::proofs::Laid::symbol_along))]
fn along_symbol(own: &[u8], symbol: &NewSymbol<'_>, size: u32) -> Result<usize, usize>
    requires short { IsShort symbol.now.name.now symbol.now.type_name.now symbol.now.comment.now }
    requires few { symbol.now.attributes.count ≤ 65535 }
    requires size_is { length (symbol_bytes symbol.now) ≡ size }
    ensures value { result ≡ along own.now 0 (symbol_bytes symbol.now) }
    ensures inside { IsInside own.now result }
{
    let at = along_u32(own, 0, size)?;
    let at = along_header(own, at, symbol)?;
    let at = along_strings(own, at, symbol)?;
    along_sections(own, at, symbol)
}

/// Checks that an entry, of which these are the own bytes, is what the symbol writer gives for a record.
///
/// # Errors
///
/// The first place in the entry at which it is not, its start where the writer refuses the record.
#[tactic(auto, using(crate::proofs::Laid::is_sized, crate::proofs::Laid::not_sized), unfolding(crate::specs::Plain::departing))]
pub fn departing(own: &[u8], symbol: &AdsSymbolInfo<'_>) -> Result<(), usize>
    ensures value { result ≡ departing own.now symbol.now }
    ensures inside { IfErr result (λ place. place ≤ length own.now) }
{
    let written = NewSymbol::from_symbol(symbol);
    let Ok(size) = written.wire_size() else {
        return Err(0);
    };
    let end = along_symbol(own, &written, size as u32)?;
    if end != own.len() {
        return Err(end);
    }
    Ok(())
}

/// Checks that an upload is in plain form: each entry is what the symbol writer gives for its record.
///
/// # Errors
///
/// At the first entry that is not: the refusal of its reading in the present mode, or 10; else 19, with the place in the upload
/// of the first byte that is not what is written of its record, or the entry's start where that is refused.
#[tactic(auto, unfolding(crate::specs::Plain::plain_of))]
pub fn check(upload: &[u8]) -> Result<(), Refusal>
    ensures { result ≡ plain_of upload.entry }
{
    for piece in Walker::<AdsSymbolInfo>::new(upload, Mode::Present) {
        let symbol = piece.answer?;
        let own = &upload[piece.start..piece.end];
        if let Err(place) = departing(own, &symbol) {
            return Err(Refusal::NotPlain {
                place: piece.start + place,
            });
        }
    }
    Ok(())
}

/// An entry is in plain form by the writer exactly where it is so without the writer: all that is flagged is there, the list of attributes is complete, the
/// records are good, each end byte is 0 and nothing is unread.
pub fn plain_in_form()
    ensures { PlainInForm }
{}

/// An entry departs nowhere exactly where it is what the writer gives for the record, and else at the first byte that is not, or at its start where the record is refused.
pub fn departing_meant()
    ensures { DepartingMeant }
{}

/// An upload passes exactly where its walk ends finished and each of its pieces is a plain entry. Else the first that is not is refused: as its reading, by 10, or by 19 with the first place
/// at which it departs from what is written of its record, its start where that is refused.
pub fn plain_meant()
    ensures { PlainMeant }
{}

/// The place that 19 tells lies inside the first entry that is not plain.
pub fn plain_placed()
    ensures { PlainPlaced }
{}

/// Two plain entries tell the same exactly where they are the same bytes.
pub fn plain_faithful()
    ensures { PlainFaithful }
{}

/// A plain entry is accepted in both modes, and read alike.
pub fn plain_checked()
    ensures { PlainChecked }
{}

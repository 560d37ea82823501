//! Symbol entries, written into a lent buffer. docs/FORMAT.md, "Writing", decides what is refused.
#![tactic(auto, unfolding(crate::specs::Writing::numbers_bytes, crate::specs::Writing::header_bytes, crate::specs::Writing::sections_bytes, crate::specs::Writing::symbol_bytes, crate::specs::Writing::sections_checked, crate::specs::Writing::symbol_checked))]

ghost use Rattle.std.specs.Prelude.{◌≡◌, ◌+◌, ◌≤◌, Ok, MatchResult, OnOk, length, if◌then◌else◌, true};
ghost use Rattle.le.specs.Put.{Wrote};
ghost use Rattle.walk.specs.Mapped.{map_ok};
ghost use Rattle.writing.specs.Checks.{IsShort};
ghost use Rattle.writing.specs.Writing.{Writes};
ghost use Rattle.writing.specs.Owned.{NotWritten};
ghost use Rattle.symbol.specs.Writing.{numbers_bytes, header_bytes, guid_bytes, extended_bytes, sections_bytes, symbol_bytes, agree, sections_checked, symbol_checked, symbol_written, IsSized};
ghost use Rattle.symbol.specs.Again.{new_of, attributes_size, refactors_size};
ghost use Rattle.symbol.specs.Symbol.{extended_word};

use crate::AdsSymbolInfo;
use flags::index_group::IndexGroup;
use flags::index_offset::IndexOffset;
use flags::symbol_flags::{AdsSymbol2Flags, AdsSymbolFlags};
use layout::size_if;
use refusal::Refusal;
use std::alloc::Allocator;
use writing::{Block, WriteError};

/// A symbol to be written.
#[derive(Clone, Copy, Debug)]
pub struct NewSymbol<'a> {
    /// Where the variable is asked for, with the index offset.
    pub index_group: IndexGroup,
    /// The place within the index group.
    pub index_offset: IndexOffset,
    /// The variable's size in bytes.
    pub size: u32,
    /// The maker's number of its type.
    pub data_type_id: u32,
    /// Which sections are written: they have to agree with what is given.
    pub flags: AdsSymbolFlags,
    /// The two bytes after the flags, written as given: nothing depends on them.
    pub high: u16,
    /// The name, of at most 65,535 bytes.
    pub name: &'a [u8],
    /// The name of its type, likewise.
    pub type_name: &'a [u8],
    /// The comment, likewise.
    pub comment: &'a [u8],
    /// There exactly if flagged.
    pub guid: Option<[u8; 16]>,
    /// Empty unless flagged.
    pub attributes: Block<'a>,
    /// 0 unless flagged.
    pub extended_flags: AdsSymbol2Flags,
    /// There exactly if the extended flags say so.
    pub refactor_infos: Block<'a>,
}

impl<'a> NewSymbol<'a> {
    /// A symbol that was read, to be written. Its blocks are the attributes and refactor records that are shown; what is
    /// flagged and absent is not given, and what is unread is left out.
    #[tactic(auto, unfolding(crate::specs::Again::new_of))]
    pub fn from_symbol(symbol: &AdsSymbolInfo<'a>) -> Self
        ensures { result ≡ new_of symbol.now }
    {
        let attributes = symbol.attributes;
        let chain = symbol.refactor_infos;
        NewSymbol {
            index_group: symbol.index_group,
            index_offset: symbol.index_offset,
            size: symbol.size,
            data_type_id: symbol.data_type_id,
            flags: symbol.flags,
            high: symbol.high,
            name: symbol.name,
            type_name: symbol.type_name,
            comment: symbol.comment,
            guid: symbol.guid,
            attributes: Block {
                bytes: part::part_of(attributes.bytes, 0, attributes_size(symbol)),
                count: attributes.count,
            },
            extended_flags: given_or_none(symbol.extended_flags),
            refactor_infos: Block {
                bytes: part::part_of(chain.bytes, 0, refactors_size(symbol)),
                count: chain.count,
            },
        }
    }
}

// The bytes of the attributes that are shown: behind them stand the extended flags, if they are there, and the chain.
fn attributes_size(symbol: &AdsSymbolInfo<'_>) -> usize
    ensures { result ≡ attributes_size symbol.now }
{
    let extended = size_if(symbol.extended_flags.is_some(), 4);
    let behind = symbol.refactor_infos.bytes.len();
    let attributes = symbol.attributes.bytes.len();
    attributes.saturating_sub(behind).saturating_sub(extended)
}

// The bytes of the refactor records that are shown.
fn refactors_size(symbol: &AdsSymbolInfo<'_>) -> usize
    ensures { result ≡ refactors_size symbol.now }
{
    let chain = symbol.refactor_infos.bytes.len();
    chain.saturating_sub(symbol.unread.len())
}

fn given_or_none(extended: Option<AdsSymbol2Flags>) -> AdsSymbol2Flags
    ensures { result ≡ record { 0 = extended_word extended } }
{
    match extended {
        Some(flags) => flags,
        None => AdsSymbol2Flags(0),
    }
}

impl NewSymbol<'_> {
    /// How many bytes the entry has, or why the symbol is refused: strings and counts that are too long (7), blocks that
    /// are not their count of good records (9), sections that disagree with the flags (8), an entry that is too large (5).
    #[tactic(auto, unfolding(crate::specs::Writing::symbol_written, writing::specs::Checks::entry_checked))]
    pub fn wire_size(&self) -> Result<usize, Refusal>
        ensures { result ≡ map_ok length (symbol_written self.now) }
    {
        check(self)?;
        let size = size_of(self);
        writing::check_size(size)?;
        Ok(size)
    }

    /// Writes the entry at the start of a buffer, and tells how many bytes it has. It is refused as by `wire_size`, and then
    /// if the buffer is too small (6); the buffer is then as it was.
    pub fn write(&self, out: &mut [u8]) -> Result<usize, Refusal>
        ensures { Writes (symbol_written self.now) out.old out.new result }
    {
        check(self)?;
        let size = size_of(self);
        writing::check_room(size, out.len())?;
        Ok(put_symbol(out, self, size as u32))
    }

    /// The entry, in memory of its own.
    ///
    /// # Errors
    ///
    /// Those of `wire_size`, and that there is no memory for it.
    pub fn to_vec<A: Allocator>(&self, alloc: A) -> Result<Vec<u8, A>, WriteError>
        ensures { MatchResult result (λ v. symbol_written self.now ≡ Ok v.items) (NotWritten (symbol_written self.now)) }
    {
        let size = self.wire_size()?;
        let mut out = vec![in alloc; 0; size]?;
        self.write(&mut out)?;
        Ok(out)
    }
}

fn check_agreement(holds: bool, section: usize) -> Result<(), Refusal>
    ensures { result ≡ agree holds section }
{
    if holds {
        return Ok(());
    }
    Err(Refusal::SectionsDisagree { section })
}

fn check_sections(symbol: &NewSymbol<'_>) -> Result<(), Refusal>
    ensures { result ≡ sections_checked symbol.now }
{
    let flags = symbol.flags;
    let extended = symbol.extended_flags;
    let attributes = symbol.attributes.bytes;
    let chained = 0 < symbol.refactor_infos.count;
    check_agreement(symbol.guid.is_some() == flags.has_type_guid(), 1)?;
    check_agreement(flags.has_attributes() || attributes.is_empty(), 2)?;
    check_agreement(flags.has_extended_flags() || extended.0 == 0, 3)?;
    check_agreement(chained == extended.has_refactor_info(), 4)
}

fn check(symbol: &NewSymbol<'_>) -> Result<(), Refusal>
    ensures value { result ≡ symbol_checked symbol.now }
    ensures sized { OnOk result (IsSized symbol.now) }
{
    writing::check_strings(symbol.name, symbol.type_name, symbol.comment)?;
    writing::check_count(symbol.attributes.count)?;
    attribute::check_block(symbol.attributes.count, symbol.attributes.bytes)?;
    refactor::check_block(symbol.refactor_infos.count, symbol.refactor_infos.bytes)?;
    check_sections(symbol)
}

fn guid_size(guid: Option<[u8; 16]>) -> usize
    ensures value { result ≡ length (guid_bytes guid) }
    ensures small { result ≤ 16 }
{
    match guid {
        Some(bytes) => bytes.len(),
        None => 0,
    }
}

fn size_of(symbol: &NewSymbol<'_>) -> usize
    requires { IsSized symbol.now }
    ensures { result ≡ length (symbol_bytes symbol.now) }
{
    let flags = symbol.flags;
    let strings = symbol.name.len() + symbol.type_name.len() + symbol.comment.len();
    let guid = guid_size(symbol.guid);
    let attributes = size_if(flags.has_attributes(), symbol.attributes.bytes.len() + 2);
    let extended = size_if(flags.has_extended_flags(), 4);
    33 + strings + guid + attributes + extended + symbol.refactor_infos.bytes.len()
}

fn put_numbers(out: &mut [u8], at: usize, symbol: &NewSymbol<'_>) -> usize
    requires { at + 20 ≤ length out.old }
    ensures { Wrote out.old at (numbers_bytes symbol.now) out.new result }
{
    let group = symbol.index_group;
    let offset = symbol.index_offset;
    let flags = symbol.flags;
    let a = le::put_u32(out, at, group.0);
    let b = le::put_u32(out, a, offset.0);
    let c = le::put_u32(out, b, symbol.size);
    let d = le::put_u32(out, c, symbol.data_type_id);
    let e = le::put_u16(out, d, flags.0);
    le::put_u16(out, e, symbol.high)
}

fn put_header(out: &mut [u8], at: usize, symbol: &NewSymbol<'_>) -> usize
    requires short { IsShort symbol.now.name.now symbol.now.type_name.now symbol.now.comment.now }
    requires at_in_bounds { at + 26 ≤ length out.old }
    ensures { Wrote out.old at (header_bytes symbol.now) out.new result }
{
    let a = put_numbers(out, at, symbol);
    writing::put_lengths(out, a, symbol.name, symbol.type_name, symbol.comment)
}

fn put_guid(out: &mut [u8], at: usize, guid: Option<[u8; 16]>) -> usize
    requires { at + length (guid_bytes guid) ≤ length out.old }
    ensures { Wrote out.old at (guid_bytes guid) out.new result }
{
    match guid {
        Some(bytes) => le::put_bytes(out, at, &bytes),
        None => at,
    }
}

fn put_extended(out: &mut [u8], at: usize, here: bool, word: u32) -> usize
    requires { at + length (extended_bytes here word) ≤ length out.old }
    ensures { Wrote out.old at (extended_bytes here word) out.new result }
{
    if here {
        return le::put_u32(out, at, word);
    }
    at
}

fn put_sections(out: &mut [u8], at: usize, symbol: &NewSymbol<'_>) -> usize
    requires sized { IsSized symbol.now }
    requires chain_in_bounds { at + length (sections_bytes symbol.now) ≤ length out.old }
    ensures { Wrote out.old at (sections_bytes symbol.now) out.new result }
{
    let flags = symbol.flags;
    let extended = symbol.extended_flags;
    let attributes = symbol.attributes;
    let a = put_guid(out, at, symbol.guid);
    let b = writing::put_attributes(
        out,
        a,
        flags.has_attributes(),
        attributes.count,
        attributes.bytes,
    );
    let c = put_extended(out, b, flags.has_extended_flags(), extended.0);
    le::put_bytes(out, c, symbol.refactor_infos.bytes)
}

fn put_symbol(out: &mut [u8], symbol: &NewSymbol<'_>, size: u32) -> usize
    requires sized { IsSized symbol.now }
    requires size_is { length (symbol_bytes symbol.now) ≡ size }
    requires size_in_bounds { size ≤ length out.old }
    ensures { Wrote out.old 0 (symbol_bytes symbol.now) out.new result }
{
    let a = le::put_u32(out, 0, size);
    let b = put_header(out, a, symbol);
    let c = writing::put_strings(out, b, symbol.name, symbol.type_name, symbol.comment);
    put_sections(out, c, symbol)
}

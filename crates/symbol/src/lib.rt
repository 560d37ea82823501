//! AdsSymbolInfo entries of an upload, read whole: what a symbol holds is a part of the bytes that it was read from.
#![tactic(auto, unfolding(layout::specs::Layout::guid_of, crate::specs::Symbol::attributes_of, crate::specs::Symbol::extended_of, crate::specs::Symbol::refactor_infos_of, le::specs::Le::le2, le::specs::Le::le4))]

ghost use Rattle.std.specs.Prelude.{◌≡◌, ◌+◌, ◌≤◌, length, ltb, Err, OnOk, if◌then◌else◌};
ghost use Rattle.le.specs.Le.{has, le2};
ghost use Rattle.layout.specs.Layout.{strings_there};
ghost use Rattle.symbol.specs.Symbol.{type_guid_flag, attributes_flag, extended_flags_flag, refactor_info_flag, attributes_of, extended_of, refactor_infos_of, extended_word, IsWithin, with_strings, refactor_ends, symbol_ended, symbol_of};
ghost use Rattle.refusal.specs.EndBytes.{ended};
ghost use Rattle.symbol.specs.Kind.{four, long, room, short, never_zero};

pub mod theorems;
mod writer;

use attribute::Attributes;
use flags::index_group::IndexGroup;
use flags::index_offset::IndexOffset;
use flags::symbol_flags::{AdsSymbol2Flags, AdsSymbolFlags};
use refactor::RefactorInfos;
use refusal::{Mode, Refusal};
use walk::{Accepts, Entry, Walker};
pub use writer::NewSymbol;

/// A symbol: a variable of the controller (docs/FORMAT.md, "Symbol entries"). Strings are Windows-1252, without their end bytes.
#[derive(Clone, Copy, Debug)]
pub struct AdsSymbolInfo<'a> {
    /// The entry's length in bytes.
    pub length: usize,
    /// Where the variable is asked for, with the index offset.
    pub index_group: IndexGroup,
    /// The place within the index group.
    pub index_offset: IndexOffset,
    /// The variable's size in bytes.
    pub size: u32,
    /// The maker's number of its type.
    pub data_type_id: u32,
    /// Which sections follow, and what the variable is.
    pub flags: AdsSymbolFlags,
    /// The two bytes after the flags, as sent: nothing depends on them.
    pub high: u16,
    /// The name, by which it is found in any case of A to Z.
    pub name: &'a [u8],
    /// The name of its type.
    pub type_name: &'a [u8],
    /// The comment.
    pub comment: &'a [u8],
    /// The GUID of its type, if it is flagged and its bytes are there.
    pub guid: Option<[u8; 16]>,
    /// The attributes that are shown: one that is refused ends them silently.
    pub attributes: Attributes<'a>,
    /// The extended flags, if they are flagged and there.
    pub extended_flags: Option<AdsSymbol2Flags>,
    /// The former names: none where the chain is refused.
    pub refactor_infos: RefactorInfos<'a>,
    /// What stands after the sections.
    pub unread: &'a [u8],
}

impl AdsSymbolInfo<'_> {
    /// The bytes of a header: no entry has fewer. The name stands behind it.
    pub const MIN_LENGTH: usize = 30;
    /// Where the name's length stands in the header.
    pub const NAME_LENGTH_AT: usize = 24;
    /// Where the length of the type's name stands in it.
    pub const TYPE_NAME_LENGTH_AT: usize = 26;
    /// Where the comment's length stands in it.
    pub const COMMENT_LENGTH_AT: usize = 28;
}

#[inline(always)]
fn read_attributes(rest: &[u8], flagged: bool) -> (Attributes<'_>, &[u8])
    ensures { result ≡ attributes_of rest.entry flagged }
{
    if !flagged || rest.len() < 2 {
        let none = Attributes {
            bytes: rest,
            count: 0,
        };
        return (none, rest);
    }
    let found = attribute::list(&rest[2..], le::u16_at(rest, 0) as usize);
    (found.attributes, found.rest)
}

#[inline(always)]
fn read_extended(rest: &[u8], flagged: bool) -> (Option<AdsSymbol2Flags>, &[u8])
    ensures { result ≡ extended_of rest.entry flagged }
{
    if !flagged || rest.len() < 4 {
        return (None, rest);
    }
    (Some(AdsSymbol2Flags(le::u32_at(rest, 0))), &rest[4..])
}

#[inline(always)]
fn read_refactor_infos(rest: &[u8], flagged: bool) -> (RefactorInfos<'_>, &[u8])
    ensures { result ≡ refactor_infos_of rest.entry flagged }
{
    if flagged && let Ok(found) = refactor::chain(rest) {
        return found;
    }
    let none = RefactorInfos {
        bytes: rest,
        count: 0,
    };
    (none, rest)
}

/// The symbol of an entry's own bytes whose strings have these lengths.
#[tactic(auto, unfolding(crate::specs::Symbol::with_strings))]
#[inline(always)]
fn with_strings(own: &[u8], name: usize, type_name: usize, comment: usize) -> AdsSymbolInfo<'_>
    requires { 33 + name + type_name + comment ≤ length own.now }
    ensures { result ≡ with_strings own.entry name type_name comment }
{
    let sections = part::rest_of(own, 33 + name + type_name + comment);
    let flags = AdsSymbolFlags(le::u16_at(own, 20));
    let (guid, rest) = layout::read_guid(sections, flags.has_type_guid());
    let (attributes, rest) = read_attributes(rest, flags.has_attributes());
    let (extended_flags, rest) = read_extended(rest, flags.has_extended_flags());
    let (refactor_infos, unread) = read_refactor_infos(rest, has_refactor_infos(extended_flags));
    AdsSymbolInfo {
        length: own.len(),
        index_group: IndexGroup(le::u32_at(own, 4)),
        index_offset: IndexOffset(le::u32_at(own, 8)),
        size: le::u32_at(own, 12),
        data_type_id: le::u32_at(own, 16),
        flags,
        high: le::u16_at(own, 22),
        name: part::part_of(own, AdsSymbolInfo::MIN_LENGTH, name),
        type_name: part::part_of(own, 31 + name, type_name),
        comment: part::part_of(own, 32 + name + type_name, comment),
        guid,
        attributes,
        extended_flags,
        refactor_infos,
        unread,
    }
}

/// Refuses a header (2) and strings (3) that are not there.
#[inline(always)]
fn check_strings(own: &[u8]) -> Result<(), Refusal>
    ensures value { result ≡ (if ltb (length own.now) 30 then Err (Refusal.TooShort 30 (length own.now)) else strings_there (33 + le2 own.now 24 + le2 own.now 26 + le2 own.now 28) (length own.now)) }
    ensures there { OnOk result (33 + le2 own.now 24 + le2 own.now 26 + le2 own.now 28 ≤ length own.now) }
{
    let length = own.len();
    if length < AdsSymbolInfo::MIN_LENGTH {
        return Err(Refusal::TooShort {
            needed: AdsSymbolInfo::MIN_LENGTH,
            present: length,
        });
    }
    let name = le::u16_at(own, AdsSymbolInfo::NAME_LENGTH_AT) as usize;
    let type_name = le::u16_at(own, AdsSymbolInfo::TYPE_NAME_LENGTH_AT) as usize;
    let comment = le::u16_at(own, AdsSymbolInfo::COMMENT_LENGTH_AT) as usize;
    layout::check_strings(33 + name + type_name + comment, length)
}

fn has_refactor_infos(extended: Option<AdsSymbol2Flags>) -> bool
    ensures { result ≡ has (extended_word extended) refactor_info_flag }
{
    match extended {
        Some(flags) => flags.has_refactor_info(),
        None => false,
    }
}

// Of a chain that is flagged, the first end byte that is not 0 of the records that it meets, also where it is dropped.
#[tactic(auto, using(refusal::proofs::EndBytes::ended_none))]
fn check_chain_ends(own: &[u8], symbol: &AdsSymbolInfo<'_>) -> Result<(), Refusal>
    requires { IsWithin own symbol.now }
    ensures { result ≡ ended (refactor_ends own.entry symbol.now) }
{
    if !has_refactor_infos(symbol.extended_flags) {
        return Ok(());
    }
    let chain = symbol.refactor_infos.bytes;
    refactor::check_ends(chain, own.len())
}

/// Refuses the first end byte that is not 0 of a symbol that was read from these bytes.
#[tactic(auto, using(refusal::proofs::EndBytes::ended_passed, refusal::proofs::EndBytes::ended_refused, refusal::proofs::EndBytes::ended_none), unfolding(crate::specs::Symbol::symbol_ended))]
fn check_ends(own: &[u8], symbol: &AdsSymbolInfo<'_>) -> Result<(), Refusal>
    requires { IsWithin own symbol.now }
    ensures { result ≡ symbol_ended own.entry symbol.now }
{
    layout::check_string_ends(
        own,
        AdsSymbolInfo::MIN_LENGTH,
        symbol.name.len(),
        symbol.type_name.len(),
        symbol.comment.len(),
    )?;
    let attributes = symbol.attributes;
    attributes.check_ends(own.len())?;
    check_chain_ends(own, symbol)
}

impl<'a> Entry<'a> for AdsSymbolInfo<'a> {
    ghost HEADER = { 30 };

    ghost read = { symbol_of };

    ghost length_of = { λ r. r.length };

    ghost four = { four };

    ghost long = { long };

    ghost room = { room };

    ghost short = { short };

    ghost never_zero = { never_zero };

    fn header() -> usize
        ensures { result ≡ 30 }
    {
        AdsSymbolInfo::MIN_LENGTH
    }

    #[tactic(auto, using(crate::proofs::Within::within), unfolding(crate::specs::Symbol::symbol_of, crate::specs::Symbol::ended_symbol))]
    #[inline(always)]
    fn read(own: &'a [u8], mode: Mode) -> Result<Self, Refusal> {
        check_strings(own)?;
        let name = le::u16_at(own, AdsSymbolInfo::NAME_LENGTH_AT) as usize;
        let type_name = le::u16_at(own, AdsSymbolInfo::TYPE_NAME_LENGTH_AT) as usize;
        let comment = le::u16_at(own, AdsSymbolInfo::COMMENT_LENGTH_AT) as usize;
        let symbol = with_strings(own, name, type_name, comment);
        if mode == Mode::Checked {
            check_ends(own, &symbol)?;
        }
        Ok(symbol)
    }
}

impl<'a> Accepts<'a> for AdsSymbolInfo<'a> {
    // In the present mode no section is looked at.
    #[tactic(auto, unfolding(crate::specs::Symbol::symbol_of, crate::specs::Symbol::ended_symbol))]
    #[inline(always)]
    fn accepts(own: &'a [u8], mode: Mode) -> Result<(), Refusal> {
        if mode == Mode::Checked {
            AdsSymbolInfo::read(own, mode)?;
            return Ok(());
        }
        check_strings(own)
    }
}

/// The pieces of an upload of symbols.
pub type Symbols<'a> = Walker<'a, AdsSymbolInfo<'a>>;

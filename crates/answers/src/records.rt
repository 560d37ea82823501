// Flag words, attributes, refactor records and chains.
use crate::case::{Hex, is_told, refused};
use attribute::{AdsAttribute, Attributes};
use flags::symbol_flags::{AdsSymbol2Flags, AdsSymbolFlags};
use flags::type_flags::AdsTypeFlags;
use refactor::{AdsRefactorInfo, RefactorInfos};
use refusal::{Mode, Refusal};
use std::io;
use std::io::Write;

// What is asked of a word, as a mask: the first question has the lowest bit.
fn mask(questions: &[bool]) -> u32 {
    let mut mask = 0;
    let mut bit: u32 = 1;
    for is in questions {
        if *is {
            mask |= bit;
        }
        bit = bit.wrapping_mul(2);
    }
    mask
}

fn symbol_mask(f: AdsSymbolFlags) -> u32 {
    mask(&[
        f.is_persistent(),
        f.is_bit_value(),
        f.is_reference_to(),
        f.has_type_guid(),
        f.is_tcom_interface_ptr(),
        f.is_read_only(),
        f.is_itf_method_access(),
        f.is_method_deref(),
        f.has_attributes(),
        f.is_static(),
        f.is_init_on_reset(),
        f.has_extended_flags(),
    ])
}

fn symbol2_mask(f: AdsSymbol2Flags) -> u32 {
    mask(&[
        f.is_plc_pointer_type(),
        f.is_redundancy_ignore(),
        f.has_refactor_info(),
        f.is_online_change_ptr_ref_type(),
        f.is_variant_type(),
    ])
}

fn type_mask(f: AdsTypeFlags) -> u32 {
    mask(&[
        f.is_data_type(),
        f.is_data_item(),
        f.is_reference_to(),
        f.is_bit_values(),
        f.is_prop_item(),
        f.has_type_guid(),
        f.is_persistent(),
        f.has_copy_mask(),
        f.has_method_infos(),
        f.has_attributes(),
        f.has_enum_infos(),
        f.is_static(),
        f.is_any_size_array(),
        f.is_plc_pointer_type(),
        f.has_refactor_info(),
        f.hide_sub_items(),
        f.is_variant(),
        f.has_extended_enum_infos(),
        f.has_extended_flags(),
        f.has_software_protection_levels(),
    ])
}

fn symbol_flags<W: Write>(bytes: &[u8], out: &mut W) -> io::Result<()> {
    match AdsSymbolFlags::try_from_slice(bytes) {
        Ok(f) => {
            let raw = f.as_raw();
            let mask = symbol_mask(f);
            let context = f.context_mask();
            let own = f.to_bytes();
            let own = Hex(&own);
            write!(out, " ok {raw} {own} {mask} {context}")
        }
        Err(why) => refused(why, out),
    }
}

fn symbol2_flags<W: Write>(bytes: &[u8], out: &mut W) -> io::Result<()> {
    match AdsSymbol2Flags::try_from_slice(bytes) {
        Ok(f) => {
            let raw = f.as_raw();
            let mask = symbol2_mask(f);
            let own = f.to_bytes();
            let own = Hex(&own);
            write!(out, " ok {raw} {own} {mask}")
        }
        Err(why) => refused(why, out),
    }
}

fn type_flags<W: Write>(bytes: &[u8], out: &mut W) -> io::Result<()> {
    match AdsTypeFlags::try_from_slice(bytes) {
        Ok(f) => {
            let raw = f.as_raw();
            let mask = type_mask(f);
            let own = f.to_bytes();
            let own = Hex(&own);
            write!(out, " ok {raw} {own} {mask}")
        }
        Err(why) => refused(why, out),
    }
}

/// The same bytes as each of the three words.
pub fn flags<W: Write>(bytes: &[u8], out: &mut W) -> io::Result<()> {
    symbol_flags(bytes, out)?;
    symbol2_flags(bytes, out)?;
    type_flags(bytes, out)
}

// What a record that was read takes when it is written.
fn size<W: Write>(size: Result<usize, Refusal>, out: &mut W) -> io::Result<()> {
    match size {
        Ok(size) => write!(out, " ok {size}"),
        Err(why) => refused(why, out),
    }
}

pub fn attribute<W: Write>(bytes: &[u8], out: &mut W) -> io::Result<()> {
    match AdsAttribute::parse(bytes, Mode::Present) {
        Ok(a) => {
            size(a.wire_size(), out)?;
            let name = Hex(a.name);
            let value = Hex(a.value);
            write!(out, " {name} {value}")
        }
        Err(why) => refused(why, out),
    }
}

/// How many attributes an entry shows, and those that are told.
pub fn attributes<W: Write>(all: Attributes<'_>, out: &mut W) -> io::Result<()> {
    let count = all.count;
    write!(out, " {count}")?;
    let mut number: usize = 0;
    for a in all {
        if is_told(number, count) {
            let name = Hex(a.name);
            let value = Hex(a.value);
            write!(out, " {name} {value}")?;
        }
        number = number.saturating_add(1);
    }
    Ok(())
}

fn record<W: Write>(r: &AdsRefactorInfo<'_>, out: &mut W) -> io::Result<()> {
    let count = r.refactor_count;
    let next = u8::from(r.next_refactor_info);
    let name = Hex(r.name);
    write!(out, " {count} {next} {name}")
}

/// How many refactor records an entry or a chain has, and those that are told.
pub fn refactor_infos<W: Write>(all: RefactorInfos<'_>, out: &mut W) -> io::Result<()> {
    let count = all.count;
    write!(out, " {count}")?;
    let mut number: usize = 0;
    for r in all {
        if is_told(number, count) {
            record(&r, out)?;
        }
        number = number.saturating_add(1);
    }
    Ok(())
}

/// A record at the start of some bytes, with how many of them it takes.
pub fn refactor<W: Write>(bytes: &[u8], out: &mut W) -> io::Result<()> {
    match refactor::first(bytes) {
        Ok((r, rest)) => {
            let taken = bytes.len().saturating_sub(rest.len());
            write!(out, " ok {taken}")?;
            record(&r, out)
        }
        Err(why) => refused(why, out),
    }
}

/// The same, with how many bytes it is written with.
pub fn refactor_size<W: Write>(bytes: &[u8], out: &mut W) -> io::Result<()> {
    match AdsRefactorInfo::parse(bytes, Mode::Present) {
        Ok(r) => {
            size(r.wire_size(), out)?;
            record(&r, out)
        }
        Err(why) => refused(why, out),
    }
}

pub fn chain<W: Write>(bytes: &[u8], out: &mut W) -> io::Result<()> {
    match RefactorInfos::parse(bytes, Mode::Present) {
        Ok((all, rest)) => {
            let taken = bytes.len().saturating_sub(rest.len());
            write!(out, " ok {taken}")?;
            refactor_infos(all, out)
        }
        Err(why) => refused(why, out),
    }
}

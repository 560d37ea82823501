// What is done with whole uploads: cut everywhere and walked, indexed, searched and salvaged.
use crate::case::{Case, Hex, refused};
use data_type::AdsDataTypeInfo;
use refusal::{Mode, Refusal};
use std::alloc::{AllocError, Global};
use std::io;
use std::io::Write;
use symbol::AdsSymbolInfo;
use walk::{Accepts, Walker};

// What the slots hold that nothing was written into.
const UNWRITTEN: u32 = 0xEEEE_EEEE;

// How many records and refusals a walk gives, and the figures of its last refusal.
fn tally<W: Write>(upload: &[u8], mode: Mode, out: &mut W) -> io::Result<()> {
    let mut records: u64 = 0;
    let mut refusals: u64 = 0;
    let mut last = None;
    for piece in Walker::<AdsSymbolInfo>::new(upload, mode) {
        match piece.answer {
            Ok(_) => records = records.wrapping_add(1),
            Err(why) => {
                refusals = refusals.wrapping_add(1);
                last = Some(why);
            }
        }
    }
    write!(out, " {records} {refusals}")?;
    match last {
        Some(why) => refused(why, out),
        None => Ok(()),
    }
}

/// Every front of the upload, from none to all of it, walked.
pub fn cuts<W: Write>(case: &Case, out: &mut W) -> io::Result<()> {
    let upload = case.bytes(1);
    for length in 0..=upload.len() {
        if let Some(front) = upload.get(..length) {
            tally(front, case.mode(0), out)?;
        }
    }
    Ok(())
}

fn number<W: Write>(answer: Result<usize, Refusal>, out: &mut W) -> io::Result<()> {
    match answer {
        Ok(number) => write!(out, " ok {number}"),
        Err(why) => refused(why, out),
    }
}

fn slots<W: Write>(slots: &[u32], out: &mut W) -> io::Result<()> {
    for slot in slots {
        if *slot == UNWRITTEN {
            write!(out, " -")?;
        } else {
            write!(out, " {slot}")?;
        }
    }
    Ok(())
}

fn index_of<'a, E: Accepts<'a>, W: Write>(
    upload: &'a [u8],
    mode: Mode,
    lent: &mut [u32],
    out: &mut W,
) -> io::Result<()> {
    number(index::build::<E>(upload, mode, lent), out)?;
    slots(lent, out)
}

/// The index of symbols, or of data types, in so many slots, and what it left in each.
pub fn index<W: Write>(case: &Case, alloc: Global, out: &mut W) -> io::Result<()> {
    let mut lent = vec![in alloc; UNWRITTEN; case.number(2) as usize]?;
    let mode = case.mode(1);
    match case.number(0) {
        0 => index_of::<AdsSymbolInfo, W>(case.bytes(3), mode, &mut lent, out),
        _ => index_of::<AdsDataTypeInfo, W>(case.bytes(3), mode, &mut lent, out),
    }
}

fn slots_of(alloc: Global, bytes: &[u8]) -> Result<Vec<u32>, AllocError> {
    let mut slots = Vec::new(alloc);
    for slot in bytes.chunks_exact(4) {
        slots.push(le::first_u32(slot))?;
    }
    Ok(slots)
}

/// Each name, without an index and through slots.
pub fn names<W: Write>(case: &Case, alloc: Global, out: &mut W) -> io::Result<()> {
    let mode = case.mode(0);
    let upload = case.bytes(1);
    let slots = slots_of(alloc, case.bytes(2))?;
    for name in case.rest(3) {
        number(symbol_find::find(upload, mode, name), out)?;
        number(symbol_find::find_indexed(upload, mode, &slots, name), out)?;
    }
    Ok(())
}

/// The room for an upload's index.
pub fn room<W: Write>(case: &Case, out: &mut W) -> io::Result<()> {
    number(room::room(case.number(0) as usize), out)
}

fn salvage_of<'a, E: Accepts<'a>, W: Write>(
    upload: &'a [u8],
    mode: Mode,
    kept: &mut [u8],
    runs: &mut [u32],
    out: &mut W,
) -> io::Result<()> {
    match salvage::salvage::<E>(upload, mode, kept, runs) {
        Ok(salvaged) => {
            let bytes = salvaged.bytes;
            let slots = salvaged.slots;
            write!(out, " ok {bytes} {slots}")?;
        }
        Err(why) => refused(why, out)?,
    }
    let kept = Hex(kept);
    write!(out, " {kept}")?;
    slots(runs, out)
}

/// An upload of symbols, or of data types, salvaged into so many bytes and slots, and what that left in each.
pub fn salvage<W: Write>(case: &Case, alloc: Global, out: &mut W) -> io::Result<()> {
    let mode = case.mode(1);
    let mut kept = vec![in alloc; 0xEEu8; case.number(2) as usize]?;
    let mut runs = vec![in alloc; UNWRITTEN; case.number(3) as usize]?;
    match case.number(0) {
        0 => salvage_of::<AdsSymbolInfo, W>(case.bytes(4), mode, &mut kept, &mut runs, out),
        _ => salvage_of::<AdsDataTypeInfo, W>(case.bytes(4), mode, &mut kept, &mut runs, out),
    }
}

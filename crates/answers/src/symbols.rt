// Symbols: direct, walked to the end, and walked for so many steps.
use crate::case::{Case, Hex, refused};
use crate::records::{attributes, refactor_infos};
use entry::WalkEnd;
use refusal::Mode;
use std::io;
use std::io::Write;
use symbol::AdsSymbolInfo;
use walk::Cursor;

fn header<W: Write>(symbol: &AdsSymbolInfo<'_>, out: &mut W) -> io::Result<()> {
    let length = symbol.length;
    let group = symbol.index_group.0;
    let offset = symbol.index_offset.0;
    let size = symbol.size;
    let type_id = symbol.data_type_id;
    let flags = symbol.flags.0;
    let high = symbol.high;
    write!(
        out,
        " ok {length} {group} {offset} {size} {type_id} {flags} {high}"
    )
}

pub fn guid<W: Write>(guid: Option<[u8; 16]>, out: &mut W) -> io::Result<()> {
    match guid {
        Some(bytes) => {
            let bytes = Hex(&bytes);
            write!(out, " {bytes}")
        }
        None => write!(out, " -"),
    }
}

fn record<W: Write>(symbol: &AdsSymbolInfo<'_>, out: &mut W) -> io::Result<()> {
    header(symbol, out)?;
    let name = Hex(symbol.name);
    let type_name = Hex(symbol.type_name);
    let comment = Hex(symbol.comment);
    write!(out, " {name} {type_name} {comment}")?;
    guid(symbol.guid, out)?;
    attributes(symbol.attributes, out)?;
    match symbol.extended_flags {
        Some(flags) => {
            let word = flags.0;
            write!(out, " {word}")?;
        }
        None => write!(out, " -")?,
    }
    refactor_infos(symbol.refactor_infos, out)?;
    let unread = symbol.unread.len();
    write!(out, " {unread}")
}

pub fn direct<W: Write>(bytes: &[u8], out: &mut W) -> io::Result<()> {
    match walk::parse::<AdsSymbolInfo>(bytes, Mode::Present) {
        Ok(symbol) => record(&symbol, out),
        Err(why) => refused(why, out),
    }
}

// A step at a place, and the place after it; nothing where the walk is over.
fn step<W: Write>(upload: &[u8], mode: Mode, at: usize, out: &mut W) -> io::Result<Option<usize>> {
    let stepped = Cursor { at }.step::<AdsSymbolInfo>(upload, mode);
    let next = stepped.cursor.at;
    write!(out, " at {at}")?;
    match stepped.answer {
        None => {
            write!(out, " end {next}")?;
            return Ok(None);
        }
        Some(Ok(symbol)) => record(&symbol, out)?,
        Some(Err(why)) => refused(why, out)?,
    }
    write!(out, " {next}")?;
    Ok(if next == at { None } else { Some(next) })
}

/// Every step, of which a length of n allows at most n and the last. One that stays would be made for ever, so it is the last.
pub fn walk<W: Write>(upload: &[u8], mode: Mode, from: usize, out: &mut W) -> io::Result<()> {
    let mut at = from;
    for _ in 0..=upload.len() {
        match step(upload, mode, at, out)? {
            Some(next) => at = next,
            None => return Ok(()),
        }
    }
    Ok(())
}

pub fn bounded<W: Write>(case: &Case, out: &mut W) -> io::Result<()> {
    let from = case.number(0) as usize;
    let allowed = case.number(1) as usize;
    let walked = entry::bounded_walk(case.bytes(2), from, allowed);
    let steps = walked.steps;
    let cursor = walked.cursor;
    match walked.end {
        Ok(WalkEnd::Finished) => write!(out, " end")?,
        Ok(WalkEnd::OutOfSteps) => write!(out, " out")?,
        Err(why) => refused(why, out)?,
    }
    write!(out, " {steps} {cursor}")
}

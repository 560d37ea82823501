//! What the command finds by its name: a symbol, an attribute of one (`find`), a data type (`type`); and what is said where nothing is found.
#![tactic(auto)]

pub mod types;

use finding::Found;
use host::failure::Failure;
use host::source::windows_1252;
use refusal::{Mode, Refusal};
use report::Upload;
use std::alloc::Global;
use std::fmt;
use std::fmt::{Display, Formatter};
use std::io::Write;
use symbol::{AdsSymbolInfo, Symbols};
use walk::Entry;
use wording::InWords;
use wording::strings::{Exact, Shown};

/// The first symbol of a name.
pub fn named<'a>(
    alloc: Global,
    upload: &Upload<'a>,
    name: &str,
) -> Result<Found<AdsSymbolInfo<'a>>, Failure> {
    let asked = windows_1252(alloc, name)?;
    let asked = asked.as_slice();
    match finding::named::<AdsSymbolInfo>(upload, asked) {
        Ok(found) => Ok(found),
        Err(Refusal::NameNotFound) => no_symbol(alloc, upload, asked),
        Err(why) => Err(Failure::of_upload(alloc, upload, &InWords(&why))),
    }
}

/// A line with the place of the first symbol of a name and its type, or with the value of one of its attributes alone.
pub fn find<W: Write>(
    alloc: Global,
    upload: &Upload<'_>,
    name: &str,
    attribute: Option<&str>,
    out: &mut W,
) -> Result<(), Failure> {
    let found = named(alloc, upload, name)?;
    match attribute {
        None => Ok(finding::write_place(&found, out)?),
        Some(attribute) => find_attribute(alloc, upload, &found, attribute, out),
    }
}

fn find_attribute<W: Write>(
    alloc: Global,
    upload: &Upload<'_>,
    found: &Found<AdsSymbolInfo<'_>>,
    attribute: &str,
    out: &mut W,
) -> Result<(), Failure> {
    let asked = windows_1252(alloc, attribute)?;
    if finding::write_attribute(found, asked.as_slice(), out)? {
        return Ok(());
    }
    no_attribute(alloc, upload, &found.entry, asked.as_slice())
}

fn no_attribute(
    alloc: Global,
    upload: &Upload<'_>,
    symbol: &AdsSymbolInfo<'_>,
    asked: &[u8],
) -> Result<(), Failure> {
    let why = NoAttribute { symbol, asked };
    Err(Failure::of_upload(alloc, upload, &why))
}

// That a symbol has no attribute of a name, and which it has.
#[derive(Clone, Copy)]
struct NoAttribute<'a> {
    symbol: &'a AdsSymbolInfo<'a>,
    asked: &'a [u8],
}

impl Display for NoAttribute<'_> {
    fn fmt<W: fmt::Write>(&self, f: &mut Formatter<W>) -> fmt::Result {
        let (name, asked) = (Shown(self.symbol.name), Shown(self.asked));
        write!(
            f,
            "refusal 13, name not found: {name} has no attribute {asked}; it has "
        )?;
        write_names(self.symbol, f)
    }
}

fn write_names<W: fmt::Write>(symbol: &AdsSymbolInfo<'_>, f: &mut Formatter<W>) -> fmt::Result {
    let mut is_first = true;
    for one in symbol.attributes {
        write_name(is_first, one.name, f)?;
        is_first = false;
    }
    if is_first {
        f.write_str("none")
    } else {
        Ok(())
    }
}

fn write_name<W: fmt::Write>(is_first: bool, name: &[u8], f: &mut Formatter<W>) -> fmt::Result {
    let name = Shown(name);
    if is_first {
        write!(f, "{name}")
    } else {
        write!(f, ", {name}")
    }
}

/// Why nothing has a name that was asked for.
#[derive(Clone, Copy)]
pub enum NotFound<'a> {
    /// What has it was refused.
    Refused {
        /// Where that starts.
        at: usize,
        /// Why.
        why: Refusal,
    },
    /// One differs in the case of accented letters: whoever types a name in another case does not expect that these alone
    /// are told apart.
    Alike(&'a [u8]),
    /// Nothing is like it.
    Nothing,
}

/// That nothing of a kind has a name, and why.
#[derive(Clone, Copy)]
pub struct Unfound<'a> {
    /// What it should have been.
    pub kind: &'static str,
    /// The name.
    pub asked: &'a [u8],
    /// Why.
    pub why: NotFound<'a>,
}

impl Display for Unfound<'_> {
    fn fmt<W: fmt::Write>(&self, f: &mut Formatter<W>) -> fmt::Result {
        f.write_str("refusal 13, name not found: ")?;
        match self.why {
            NotFound::Refused { at, why } => write_refused(self.asked, at, why, f),
            NotFound::Alike(name) => write_alike(self.kind, self.asked, name, f),
            NotFound::Nothing => write_nothing(self.kind, self.asked, f),
        }
    }
}

fn write_refused<W: fmt::Write>(
    asked: &[u8],
    at: usize,
    why: Refusal,
    f: &mut Formatter<W>,
) -> fmt::Result {
    let (asked, why) = (Shown(asked), InWords(&why));
    write!(f, "{asked} at {at} was refused, {why}")
}

fn write_alike<W: fmt::Write>(
    kind: &str,
    asked: &[u8],
    name: &[u8],
    f: &mut Formatter<W>,
) -> fmt::Result {
    write_nothing(kind, asked, f)?;
    let name = Shown(name);
    write!(f, ", but one is {name}")
}

fn write_nothing<W: fmt::Write>(kind: &str, asked: &[u8], f: &mut Formatter<W>) -> fmt::Result {
    let asked = Shown(asked);
    write!(f, "no {kind} is {asked}")
}

fn no_symbol<'a>(
    alloc: Global,
    upload: &Upload<'a>,
    asked: &[u8],
) -> Result<Found<AdsSymbolInfo<'a>>, Failure> {
    let why = Unfound {
        kind: "symbol",
        asked,
        why: not_found(alloc, upload, asked)?,
    };
    Err(Failure::of_upload(alloc, upload, &why))
}

// Why no symbol has a name: one that has it was refused in the checked mode, or one is alike.
fn not_found<'a>(
    alloc: Global,
    upload: &Upload<'a>,
    asked: &[u8],
) -> Result<NotFound<'a>, Failure> {
    if let Some((at, why)) = refused_for_its_end(upload, asked) {
        return Ok(NotFound::Refused { at, why });
    }
    match alike(alloc, upload, asked)? {
        Some(name) => Ok(NotFound::Alike(name)),
        None => Ok(NotFound::Nothing),
    }
}

// The first name that differs in the case of letters alone, accented ones too.
fn alike<'a>(
    alloc: Global,
    upload: &Upload<'a>,
    asked: &[u8],
) -> Result<Option<&'a [u8]>, Failure> {
    let small = small(alloc, asked)?;
    for piece in Symbols::new(upload.bytes, upload.mode) {
        if let Ok(symbol) = piece.answer {
            if is_alike(alloc, symbol.name, &small)? {
                return Ok(Some(symbol.name));
            }
        }
    }
    Ok(None)
}

/// A name in small letters, accented ones too.
pub fn small(alloc: Global, name: &[u8]) -> Result<String, Failure> {
    let exact = Exact(name);
    let text = format!(in alloc; "{exact}")?;
    Ok(text.as_str().to_lowercase(alloc)?)
}

/// Whether a name is one in small letters but for the case of its own.
pub fn is_alike(alloc: Global, name: &[u8], small_name: &String) -> Result<bool, Failure> {
    let own = small(alloc, name)?;
    Ok(own.as_str() == small_name.as_str())
}

// The first symbol of a name that the present mode accepts, where the upload's own refuses it.
fn refused_for_its_end(upload: &Upload<'_>, asked: &[u8]) -> Option<(usize, Refusal)> {
    let bytes = upload.bytes;
    let at = symbol_find::find(bytes, Mode::Present, asked).ok()?;
    match walk::parse::<AdsSymbolInfo>(&bytes[at.min(bytes.len())..], upload.mode) {
        Ok(_) => None,
        Err(why) => Some((at, why)),
    }
}

//! `plain`: whether an upload is in plain form, and what departs first (docs/FORMAT.md, "The command's text").
#![tactic(auto, unfolding(crate::specs::Told::fault_text, crate::specs::Told::departure_text))]

ghost use Rattle.std.specs.Prelude.{◌≡◌, Some, IfOk, get_or};
ghost use Rattle.plain_report.specs.Told.{part_text, fault_text, departure_text};
ghost use Rattle.plain_report.specs.Departure.{part_at, fault_at, departure_of};
ghost use Rattle.plain_report.specs.Meaning.{DepartureRefused, DepartureMeant};
ghost use Rattle.plain_report.specs.Texts.{DeparturesMeant};

use refusal::{Mode, Refusal};
use std::alloc::{AllocError, Allocator};
use std::fmt;
use symbol::{AdsSymbolInfo, NewSymbol, Symbols};
use wording::strings::Shown;
use wording::{Grouped, InWords, Pair};
use writing::WriteError;

/// What can be otherwise in an entry whose record is written.
#[derive(Clone, Copy, Debug, PartialEq, Eq)]
pub enum Part {
    /// The entry's length.
    Length,
    /// The end byte of the name.
    NameEnd,
    /// The end byte of the type.
    TypeEnd,
    /// The end byte of the comment.
    CommentEnd,
    /// The count of the attributes.
    Count,
}

/// Why an entry is not plain, as far as its refusal does not tell.
#[derive(Clone, Copy, Debug)]
pub enum Fault<'a> {
    /// It is not read.
    Unread,
    /// What was read of it, under this name, is not written again.
    Unwritten {
        name: &'a [u8],
        why: Refusal,
    },
    /// A byte of it, at this place in the entry, is another than would be written.
    Byte {
        name: &'a [u8],
        place: usize,
        part: Part,
        there: u8,
        written: u8,
    },
}

/// The first entry of an upload that is not plain.
#[derive(Clone, Copy, Debug)]
pub struct Departure<'a> {
    /// Where the entry starts, in bytes from the start of the upload.
    pub start: usize,
    /// Why the upload is refused.
    pub why: Refusal,
    /// What is wrong with the entry.
    pub fault: Fault<'a>,
}

fn part_text(part: Part) -> &'static str
    ensures { result.now ≡ part_text part }
{
    match part {
        Part::Length => "its length",
        Part::NameEnd => "the end byte of the name",
        Part::TypeEnd => "the end byte of the type",
        Part::CommentEnd => "the end byte of the comment",
        Part::Count => "the count of its attributes",
    }
}

impl fmt::Display for Fault<'_> {
    ghost output = { λ f. Some (fault_text f) };

    fn fmt<W: fmt::Write>(&self, f: &mut fmt::Formatter<W>) -> fmt::Result {
        match self {
            Fault::Unread => Ok(()),
            Fault::Unwritten { name, why } => {
                let (name, why) = (Shown(name), InWords(why));
                write!(
                    f,
                    "\n{name}: what was read of the entry is not written again, {why}"
                )
            }
            Fault::Byte {
                name,
                place,
                part,
                there,
                written,
            } => {
                let (name, place) = (Shown(name), Grouped(*place));
                let part = part_text(*part);
                let (there, written) = (Pair(*there), Pair(*written));
                write!(
                    f,
                    "\n{name}: byte {place} of the entry, {part}, is 0x{there}, and 0x{written} would be written"
                )
            }
        }
    }
}

impl fmt::Display for Departure<'_> {
    ghost output = { λ d. Some (departure_text d) };

    fn fmt<W: fmt::Write>(&self, f: &mut fmt::Formatter<W>) -> fmt::Result {
        let start = self.start;
        let why = InWords(&self.why);
        let fault = self.fault;
        write!(f, "at {start}: {why}{fault}")
    }
}

// What stands at a place of an entry at which it can depart.
#[tactic(auto, unfolding(crate::specs::Departure::part_at))]
fn part_at(symbol: &AdsSymbolInfo<'_>, place: usize) -> Part
    ensures { result ≡ part_at symbol.now place }
{
    let name_end = 30 + symbol.name.len();
    let type_size = 1 + symbol.type_name.len();
    let comment_size = 1 + symbol.comment.len();
    let behind_name = place.saturating_sub(name_end);
    if place < 4 {
        Part::Length
    } else if place == name_end {
        Part::NameEnd
    } else if behind_name == type_size {
        Part::TypeEnd
    } else if behind_name.saturating_sub(type_size) == comment_size {
        Part::CommentEnd
    } else {
        Part::Count
    }
}

// A byte of some bytes, 0 behind them.
fn byte_at(bytes: &[u8], place: usize) -> u8
    ensures { result ≡ get_or bytes.now place 0 }
{
    bytes.get(place).copied().unwrap_or_default()
}

// What is wrong at a place of an entry that was read.
#[tactic(auto, unfolding(crate::specs::Departure::fault_at))]
fn fault_at<'a, A: Allocator>(
    alloc: A,
    symbol: &AdsSymbolInfo<'a>,
    own: &[u8],
    place: usize,
) -> Result<Fault<'a>, AllocError>
    ensures { IfOk result (λ fault. fault ≡ fault_at symbol.now own.now place) }
{
    let name = symbol.name;
    match NewSymbol::from_symbol(symbol).to_vec(alloc) {
        Ok(written) => Ok(Fault::Byte {
            name,
            place,
            part: part_at(symbol, place),
            there: byte_at(own, place),
            written: byte_at(&written, place),
        }),
        Err(WriteError::Refused(why)) => Ok(Fault::Unwritten { name, why }),
        Err(WriteError::OutOfMemory) => Err(AllocError),
    }
}

/// The first entry that is not plain, if there is one.
pub fn first_departure<'a, A: Allocator>(
    alloc: A,
    upload: &'a [u8],
) -> Result<Option<Departure<'a>>, AllocError>
    ensures { IfOk result (λ found. found ≡ departure_of upload.entry) }
{
    for piece in Symbols::new(upload, Mode::Present) {
        let start = piece.start;
        let symbol = match piece.answer {
            Ok(symbol) => symbol,
            Err(why) => {
                let fault = Fault::Unread;
                return Ok(Some(Departure { start, why, fault }));
            }
        };
        let own = &upload[start..piece.end];
        if let Err(place) = plain::departing(own, &symbol) {
            let fault = fault_at(alloc, &symbol, own, place)?;
            let why = Refusal::NotPlain {
                place: start + place,
            };
            return Ok(Some(Departure { start, why, fault }));
        }
    }
    Ok(None)
}

// Theorems. Each is the contract of a function that does nothing, so that none goes unnoticed if its proof does.

/// Nothing is found in an upload that is plain, and in any other a departure with its refusal.
pub fn departure_refused()
    ensures { DepartureRefused }
{}

/// What is found is the first entry that is not plain, and what is told of it is true: it is not read, its record is refused, or a byte, the first that is, is another than would be written. Such a byte is one of the entry's length, the end byte of its name, its type or its comment, or one of the count of its attributes, by the lengths and flags in the entry, and it is named so.
pub fn departure_meant()
    ensures { DepartureMeant }
{}

/// Departures of every kind, character for character.
pub fn departures_meant()
    ensures { DeparturesMeant }
{}

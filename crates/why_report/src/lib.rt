//! What `why` prints: a sentence for each section of a symbol, and the bytes where it stands or was looked for (docs/FORMAT.md, "The command's text").
#![tactic(auto)]

ghost use Rattle.std.specs.Prelude.{◌≡◌, Some, OnOk};
ghost use Rattle.std.specs.Io.KnownBytes.{Appends};
ghost use Rattle.why_report.specs.Text.{heading, flag, least, counted, missing, refused, sentence_text, bytes_at, place_of, row_text, section_text, is_missing, nothing_missing, sections_text, ending_text, reasons_text};

pub mod theorems;

use std::io::Write;
use std::{fmt, io};
use why::{Reason, Reasons};
use wording::{Bytes, InWords, Pair};

/// A section of a symbol.
#[derive(Clone, Copy)]
pub enum Section {
    Guid,
    Attributes,
    ExtendedFlags,
    FormerNames,
}

// How many bytes are shown of a section at most.
const MOST: usize = 16;

fn heading(section: Section) -> &'static str
    ensures { result.now ≡ heading section }
{
    match section {
        Section::Guid => "GUID",
        Section::Attributes => "attributes",
        Section::ExtendedFlags => "extended flags",
        Section::FormerNames => "former names",
    }
}

fn flag(section: Section) -> &'static str
    ensures { result.now ≡ flag section }
{
    match section {
        Section::Guid => "flag 0x0008",
        Section::Attributes => "flag 0x1000",
        Section::ExtendedFlags => "flag 0x8000",
        Section::FormerNames => "extended flag 0x0004",
    }
}

// How many bytes it has at least.
fn least(section: Section) -> &'static str
    ensures { result.now ≡ least section }
{
    match section {
        Section::Guid => "16",
        Section::Attributes => "2",
        Section::ExtendedFlags => "4",
        Section::FormerNames => "1",
    }
}

// A section that is shown whole.
#[derive(Clone, Copy)]
struct Counted {
    section: Section,
    place: usize,
    count: usize,
}

impl fmt::Display for Counted {
    ghost output = { λ c. Some (counted c.section c.place c.count) };

    fn fmt<W: fmt::Write>(&self, f: &mut fmt::Formatter<W>) -> fmt::Result {
        let (place, count) = (self.place, self.count);
        match self.section {
            Section::Attributes => write!(f, "{count} announced at place {place}, all there"),
            Section::FormerNames => write!(f, "{count} in the chain at place {place}, all there"),
            _ => write!(f, "there, at place {place}"),
        }
    }
}

/// Attributes of which some are owed, as a part of a sentence.
#[derive(Clone, Copy)]
pub struct Missing {
    /// How many the count announces.
    pub announced: usize,
    /// Before how many of them the entry ends.
    pub owed: usize,
}

impl fmt::Display for Missing {
    ghost output = { λ m. Some (missing m.announced m.owed) };

    fn fmt<W: fmt::Write>(&self, f: &mut fmt::Formatter<W>) -> fmt::Result {
        let (announced, owed) = (self.announced, self.owed);
        write!(
            f,
            "{announced} announced, and the entry ends before {owed} of them"
        )
    }
}

fn refused(section: Section) -> &'static str
    ensures { result.now ≡ refused section }
{
    match section {
        Section::FormerNames => "is refused and drops the chain",
        _ => "is refused and ends the list",
    }
}

/// Why a section is there or not, in a sentence.
#[derive(Clone, Copy)]
pub struct Sentence<'a> {
    /// Which section.
    pub section: Section,
    /// Why.
    pub reason: &'a Reason,
}

impl fmt::Display for Sentence<'_> {
    ghost output = { λ s. Some (sentence_text s.section s.reason.now) };

    #[tactic(auto, unfolding(crate::specs::Text::sentence_text))]
    fn fmt<W: fmt::Write>(&self, f: &mut fmt::Formatter<W>) -> fmt::Result {
        let heading = heading(self.section);
        match *self.reason {
            Reason::NotFlagged => {
                let flag = flag(self.section);
                write!(f, "{heading}: not flagged, {flag} is not set.")
            }
            Reason::NoExtendedFlags => {
                write!(
                    f,
                    "{heading}: not flagged, there are no extended flags that would flag them."
                )
            }
            Reason::NoRoom { place, left } => {
                let (left, least) = (Bytes(left), least(self.section));
                write!(
                    f,
                    "{heading}: flagged, with {left} left at place {place} and {least} needed."
                )
            }
            Reason::Whole { place, count } => {
                let counted = Counted {
                    section: self.section,
                    place,
                    count,
                };
                write!(f, "{heading}: {counted}.")
            }
            Reason::Refused {
                record,
                place,
                ref why,
            } => {
                let refused = refused(self.section);
                let why = InWords(why);
                write!(
                    f,
                    "{heading}: number {record}, from 0, at place {place} {refused}: {why}."
                )
            }
            Reason::Owed { announced, owed } => {
                let missing = Missing { announced, owed };
                write!(f, "{heading}: {missing}.")
            }
        }
    }
}

// Bytes of an entry from a place on.
#[derive(Clone, Copy)]
struct Row<'a> {
    place: usize,
    bytes: &'a [u8],
}

impl fmt::Display for Row<'_> {
    ghost output = { λ r. Some (row_text r.place r.bytes.now) };

    #[tactic(auto, unfolding(crate::specs::Text::row_text))]
    fn fmt<W: fmt::Write>(&self, f: &mut fmt::Formatter<W>) -> fmt::Result {
        let place = self.place;
        write!(f, "  {place}:")?;
        for byte in self.bytes {
            let pair = Pair(*byte);
            write!(f, " {pair}")?;
        }
        write!(f, "\n")
    }
}

// Those at a place, as many as are shown.
fn bytes_at(own: &[u8], place: usize) -> &[u8]
    ensures { result.now ≡ bytes_at own.now place }
{
    let rest = &own[place.min(own.len())..];
    &rest[..rest.len().min(MOST)]
}

// Where a section stands, or was looked for.
fn place_of(reason: &Reason) -> Option<usize>
    ensures { result ≡ place_of reason.now }
{
    match reason {
        Reason::NoRoom { place, left: _ } => Some(*place),
        Reason::Whole { place, count: _ } => Some(*place),
        Reason::Refused {
            record: _,
            place,
            why: _,
        } => Some(*place),
        _ => None,
    }
}

#[tactic(auto, unfolding(crate::specs::Text::section_text))]
fn write_section<W: Write>(
    section: Section,
    reason: &Reason,
    own: &[u8],
    out: &mut W,
) -> io::Result<()>
    ensures { OnOk result (Appends (W.contents out.old) (W.contents out.new) (section_text own.now section reason.now)) }
{
    let sentence = Sentence { section, reason };
    writeln!(out, "{sentence}")?;
    let Some(place) = place_of(reason) else {
        return Ok(());
    };
    let row = Row {
        place,
        bytes: bytes_at(own, place),
    };
    write!(out, "{row}")
}

// Whether something that is flagged or announced is not shown.
fn is_missing(reason: &Reason) -> bool
    ensures { result ≡ is_missing reason.now }
{
    matches!(
        reason,
        Reason::NoRoom { .. } | Reason::Refused { .. } | Reason::Owed { .. }
    )
}

fn nothing_missing(reasons: &Reasons) -> bool
    ensures { result ≡ nothing_missing reasons.now }
{
    !is_missing(&reasons.guid)
        && !is_missing(&reasons.attributes)
        && !is_missing(&reasons.extended_flags)
        && !is_missing(&reasons.refactor_infos)
}

#[tactic(auto, unfolding(crate::specs::Text::sections_text))]
fn write_sections<W: Write>(own: &[u8], reasons: &Reasons, out: &mut W) -> io::Result<()>
    ensures { OnOk result (Appends (W.contents out.old) (W.contents out.new) (sections_text own.now reasons.now)) }
{
    write_section(Section::Guid, &reasons.guid, own, out)?;
    write_section(Section::Attributes, &reasons.attributes, own, out)?;
    write_section(Section::ExtendedFlags, &reasons.extended_flags, own, out)?;
    write_section(Section::FormerNames, &reasons.refactor_infos, own, out)
}

fn write_ending<W: Write>(nothing_missing: bool, out: &mut W) -> io::Result<()>
    ensures { OnOk result (Appends (W.contents out.old) (W.contents out.new) (ending_text nothing_missing)) }
{
    if !nothing_missing {
        return Ok(());
    }
    writeln!(out, "Nothing that is flagged or announced is missing.")
}

/// Writes a sentence for each section of a symbol, of whose entry these are the own bytes, with the bytes at its place; and that nothing is missing, where that is so.
#[tactic(auto, unfolding(crate::specs::Text::reasons_text))]
pub fn write<W: Write>(own: &[u8], reasons: &Reasons, out: &mut W) -> io::Result<()>
    ensures { OnOk result (Appends (W.contents out.old) (W.contents out.new) (reasons_text own.now reasons.now)) }
{
    write_sections(own, reasons, out)?;
    write_ending(nothing_missing(reasons), out)
}

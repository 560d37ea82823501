//! The numbered refusals (docs/FORMAT.md, "Refusals") and the two modes of a reader. After the Rust's error.rs.
#![tactic(auto, unfolding(crate::specs::EndBytes::ended))]

ghost use Rattle.std.specs.Prelude.{◌≡◌, ◌∷◌, [], Some};
ghost use Rattle.refusal.specs.Refusal.{figures_of, numbered};
ghost use Rattle.refusal.specs.EndBytes.{ended};
ghost use Rattle.refusal.specs.EndsMeant.{EndsMeant};
ghost use Rattle.refusal.specs.FiguresMeant.{FiguresMeant};

use std::error::Error;

mod words;

pub use crate::words::Words;

/// The most bytes of an input, and of an entry that is written.
pub const LIMIT: usize = 16777216;

/// The levels of a data type entry, the root's among them.
pub const DEEPEST: usize = 16;

/// The largest index offset, of 32 bits.
pub const LARGEST_OFFSET: usize = 4294967295;

/// The most data types, one behind another, of which each only names the next.
pub const MOST_ALIASES: usize = 16;

/// Whether an end byte that is not 0 refuses.
#[derive(Clone, Copy, Debug, PartialEq, Eq)]
pub enum Mode {
    /// End bytes are not looked at.
    Present,
    /// An end byte other than 0 refuses.
    Checked,
}

/// Why a reader or a writer refuses: one case for each number, with what its two figures are made of.
#[derive(Clone, Copy, Debug, PartialEq, Eq)]
pub enum Refusal {
    /// 1: a record or a flag word of another length, in bytes.
    UnexpectedLength { needed: usize, present: usize },
    /// 2: less than a header, a length or a record's least, in bytes.
    TooShort { needed: usize, present: usize },
    /// 3: an entry claims, or its parts need, more bytes than there are.
    EntryLengthMismatch { needed: usize, available: usize },
    /// 4: the header is there, and the claim is below it.
    ClaimBelowHeader { header: usize, claim: usize },
    /// 5: an input or a written entry above the limit, in bytes.
    TooLarge { length: usize },
    /// 6: more is to be written than was lent.
    OutputTooSmall { needed: usize, lent: usize },
    /// 7: a string or a count above its length field.
    TooLong { most: usize, actual: usize },
    /// 8: a symbol's flags and the sections given disagree, at this section.
    SectionsDisagree { section: usize },
    /// 9: a block is not exactly its count of good records; how many stand at its start.
    BadBlock { count: usize, good: usize },
    /// 10: a walk met an entry that claims no bytes.
    ZeroEntryLength,
    /// 11: at this place, 1 for bytes that are not UTF-8, 2 for a character that Windows-1252 has not.
    BadText { place: usize, kind: usize },
    /// 12: a bad line of hexadecimal digits.
    BadHexadecimal,
    /// 13: nothing has the name.
    NameNotFound,
    /// 14: no attribute, refactor record, array record or member has that number.
    NoSuchNumber { count: usize, asked: usize },
    /// 15: a data type entry deeper than its deepest level.
    TooDeep,
    /// 16: in the checked mode, an end byte that is not 0, at this place of the entry or of a record that is read alone.
    EndByte { place: usize, byte: u8 },
    /// 17: a symbol that a sheet can't hold: which entry of the upload, from 0, and the first that applies of 1 GUID, 2 attributes or
    /// 3 extended flags flagged, 5 unread bytes or an end byte that is not 0.
    NotInSheet { entry: usize, reason: usize },
    /// 18: a bad row of a sheet, the header being 1: column 0 for its shape, else the column from 1 whose cell is bad.
    BadSheet { row: usize, column: usize },
    /// 19: an upload that is not in plain form: the place in the upload of the first byte that departs.
    NotPlain { place: usize },
    /// 20: a text that is no path of a variable: the place in it from where on it is none.
    BadPath { place: usize },
    /// 13, of a path: no member has the name of the part at that place.
    NoSuchMember { place: usize },
    /// 13, of a path: the type of the part at that place is not among the data types.
    NoSuchType { place: usize },
    /// 21: subscripts of a path, by their place there, that are not as many as there are dimensions.
    WrongDimensions { place: usize, dimensions: usize },
    /// 22: a part of a path, by its place there, that has no offset: flag 0x2 below a symbol of a bit, 4 a reference, 0x40 a property,
    /// 0x20000 a static member, 0x400 and 0x800000 below a pointer.
    NoOffset { place: usize, flag: usize },
    /// 23: an index offset above 32 bits.
    OffsetTooLarge { offset: usize },
    /// 24: data types, one behind another, of which each only names the next, more than so many: the place in the path of the part below.
    TooManyAliases { place: usize },
}

/// A refusal in numbers (docs/FORMAT.md, "Refusals").
#[derive(Clone, Copy, Debug, PartialEq, Eq)]
pub struct Figures {
    /// Which refusal it is.
    pub number: u32,
    /// What was needed or claimed.
    pub expected: usize,
    /// What was there.
    pub got: usize,
}

impl Refusal {
    /// The refusal's number and its two figures.
    pub fn figures(self) -> Figures
        ensures { result ≡ figures_of self }
    {
        match self {
            Refusal::UnexpectedLength { needed, present } => numbered(1, needed, present),
            Refusal::TooShort { needed, present } => numbered(2, needed, present),
            Refusal::EntryLengthMismatch { needed, available } => numbered(3, needed, available),
            Refusal::ClaimBelowHeader { header, claim } => numbered(4, header, claim),
            Refusal::TooLarge { length } => numbered(5, LIMIT, length),
            Refusal::OutputTooSmall { needed, lent } => numbered(6, needed, lent),
            Refusal::TooLong { most, actual } => numbered(7, most, actual),
            Refusal::SectionsDisagree { section } => numbered(8, section, 0),
            Refusal::BadBlock { count, good } => numbered(9, count, good),
            Refusal::ZeroEntryLength => numbered(10, 1, 0),
            Refusal::BadText { place, kind } => numbered(11, place, kind),
            Refusal::BadHexadecimal => numbered(12, 0, 0),
            Refusal::NameNotFound => numbered(13, 0, 0),
            Refusal::NoSuchNumber { count, asked } => numbered(14, count, asked),
            Refusal::TooDeep => numbered(15, DEEPEST, DEEPEST + 1),
            Refusal::EndByte { place, byte } => numbered(16, place, byte as usize),
            Refusal::NotInSheet { entry, reason } => numbered(17, entry, reason),
            Refusal::BadSheet { row, column } => numbered(18, row, column),
            Refusal::NotPlain { place } => numbered(19, place, 0),
            Refusal::BadPath { place } => numbered(20, place, 0),
            Refusal::NoSuchMember { place } => numbered(13, place, 1),
            Refusal::NoSuchType { place } => numbered(13, place, 2),
            Refusal::WrongDimensions { place, dimensions } => numbered(21, place, dimensions),
            Refusal::NoOffset { place, flag } => numbered(22, place, flag),
            Refusal::OffsetTooLarge { offset } => numbered(23, LARGEST_OFFSET, offset),
            Refusal::TooManyAliases { place } => numbered(24, place, MOST_ALIASES),
        }
    }
}

impl Error for Refusal {}

fn numbered(number: u32, expected: usize, got: usize) -> Figures
    ensures { result ≡ numbered number expected got }
{
    Figures {
        number,
        expected,
        got,
    }
}

/// Refuses the byte that ends a string, at a place of an entry, unless it is 0.
#[inline(always)]
pub fn check_end(place: usize, byte: u8) -> Result<(), Refusal>
    ensures { result ≡ ended ((place, byte) ∷ []) }
{
    if byte != 0 {
        return Err(Refusal::EndByte { place, byte });
    }
    Ok(())
}

// Theorems. Each is the contract of a function that does nothing, so that none goes unnoticed if its proof does.

/// The look at end bytes passes exactly where all are 0, and else it refuses the first that is not.
pub fn ends_meant()
    ensures { EndsMeant }
{}

/// The numbers are 1 to 24, and a number with its two figures tells which refusal it is and what it is made of.
pub fn figures_meant()
    ensures { FiguresMeant }
{}

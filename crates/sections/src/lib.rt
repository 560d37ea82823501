//! The sections of a symbol's entry: the parts in which its bytes are told (docs/FORMAT.md, "Symbol entries").
#![tactic(auto)]

ghost use Rattle.std.specs.Prelude.{◌≡◌, ◌+◌, ◌-◌, ◌^◌, ◌<◌, IfOk, Some, OnOk, length};
ghost use Rattle.std.specs.List.{flat_map};
ghost use Rattle.sections.specs.Parts.{kind, number, part_order, part_text};
ghost use Rattle.sections.specs.Sections.{own_bytes, cut, cut_all, header_parts, string_parts, with_count, with_attributes, with_former_names, with_optional, cut_entry, seen, sections_of};

pub mod theorems;

use std::alloc::{AllocError, Global};
use std::cmp::Ordering;
use std::fmt;
use symbol::AdsSymbolInfo;

/// A part of an entry, in the order in which they stand. Attributes and former names have their numbers, from 0.
#[derive(Clone, Copy, Debug, PartialEq, Eq)]
pub enum Part {
    Length,
    Group,
    Offset,
    Size,
    TypeId,
    Flags,
    High,
    StringLengths,
    Name,
    Type,
    Comment,
    Guid,
    AttributeCount,
    Attribute(usize),
    ExtendedFlags,
    FormerName(usize),
    Unread,
}

impl Part {
    // Its place among all parts: by its kind, and then by its number.
    fn place(self) -> (u8, usize)
        ensures { result ≡ (kind self, number self) }
    {
        match self {
            Part::Length => (0, 0),
            Part::Group => (1, 0),
            Part::Offset => (2, 0),
            Part::Size => (3, 0),
            Part::TypeId => (4, 0),
            Part::Flags => (5, 0),
            Part::High => (6, 0),
            Part::StringLengths => (7, 0),
            Part::Name => (8, 0),
            Part::Type => (9, 0),
            Part::Comment => (10, 0),
            Part::Guid => (11, 0),
            Part::AttributeCount => (12, 0),
            Part::Attribute(number) => (13, number),
            Part::ExtendedFlags => (14, 0),
            Part::FormerName(number) => (15, number),
            Part::Unread => (16, 0),
        }
    }

    /// The order in which two parts stand.
    pub fn compare(self, other: Part) -> Ordering
        ensures { result ≡ part_order self other }
    {
        let (kind, number) = self.place();
        let (other_kind, other_number) = other.place();
        match kind.cmp(&other_kind) {
            Ordering::Equal => number.cmp(&other_number),
            order => order,
        }
    }
}

impl fmt::Display for Part {
    ghost output = { λ p. Some (part_text p) };

    #[tactic(auto, unfolding(crate::specs::Parts::part_text))]
    fn fmt<W: fmt::Write>(&self, f: &mut fmt::Formatter<W>) -> fmt::Result {
        match self {
            Part::Length => write!(f, "length"),
            Part::Group => write!(f, "group"),
            Part::Offset => write!(f, "offset"),
            Part::Size => write!(f, "size"),
            Part::TypeId => write!(f, "type id"),
            Part::Flags => write!(f, "flags"),
            Part::High => write!(f, "high"),
            Part::StringLengths => write!(f, "string lengths"),
            Part::Name => write!(f, "name"),
            Part::Type => write!(f, "type"),
            Part::Comment => write!(f, "comment"),
            Part::Guid => write!(f, "GUID"),
            Part::AttributeCount => write!(f, "attribute count"),
            Part::Attribute(number) => write!(f, "attribute {number}"),
            Part::ExtendedFlags => write!(f, "extended flags"),
            Part::FormerName(number) => write!(f, "former name {number}"),
            Part::Unread => write!(f, "unread"),
        }
    }
}

/// The bytes of a part.
#[derive(Clone, Copy, Debug)]
pub struct Section<'a> {
    /// Which part they are.
    pub part: Part,
    /// The place in the entry where they begin.
    pub at: usize,
    /// The bytes, one at least.
    pub bytes: &'a [u8],
}

// What was cut off an entry's own bytes so far.
#[derive(Drop)]
struct Cutter<'a> {
    own: &'a [u8],
    sections: Vec<Section<'a>>,
    // Where the next section begins.
    at: usize,
}

impl<'a> Cutter<'a> {
    // How many bytes are not cut off yet.
    fn left(&self) -> usize
        ensures { result ≡ length self.now.own.now - self.now.at }
    {
        self.own.len().saturating_sub(self.at)
    }

    // Cuts so many bytes off, or as many as there are. No section is empty.
    #[tactic(auto, unfolding(crate::specs::Sections::cut))]
    fn cut(&mut self, part: Part, size: usize) -> Result<(), AllocError>
        ensures value { OnOk result (seen self.new ≡ cut part size (seen self.old)) }
        // So what does not fit a number is more than there is.
        ensures left_fits { length self.old.own.now - self.old.at < 2 ^ 64 }
    {
        let length = size.min(self.left());
        if length == 0 {
            return Ok(());
        }
        self.sections.push(Section {
            part,
            at: self.at,
            bytes: part::part_of(self.own, self.at, length),
        })?;
        self.at += length;
        Ok(())
    }

    fn cut_header(&mut self) -> Result<(), AllocError>
        ensures { OnOk result (seen self.new ≡ cut_all header_parts (seen self.old)) }
    {
        self.cut(Part::Length, 4)?;
        self.cut(Part::Group, 4)?;
        self.cut(Part::Offset, 4)?;
        self.cut(Part::Size, 4)?;
        self.cut(Part::TypeId, 4)?;
        self.cut(Part::Flags, 2)?;
        self.cut(Part::High, 2)?;
        self.cut(Part::StringLengths, 6)
    }

    fn cut_optional(&mut self, part: Part, length: usize, is_there: bool) -> Result<(), AllocError>
        ensures { OnOk result (seen self.new ≡ with_optional part length is_there (seen self.old)) }
    {
        if is_there {
            self.cut(part, length)?;
        }
        Ok(())
    }

    // A string and its end byte.
    #[tactic(auto, using(crate::proofs::Cutting::cut_most))]
    fn cut_string(&mut self, part: Part, string: &[u8]) -> Result<(), AllocError>
        ensures { OnOk result (seen self.new ≡ cut part (length string.now + 1) (seen self.old)) }
    {
        self.cut(part, string.len().saturating_add(1))
    }

    fn cut_strings(&mut self, symbol: &AdsSymbolInfo<'_>) -> Result<(), AllocError>
        ensures { OnOk result (seen self.new ≡ cut_all (string_parts symbol.now) (seen self.old)) }
    {
        self.cut_string(Part::Name, symbol.name)?;
        self.cut_string(Part::Type, symbol.type_name)?;
        self.cut_string(Part::Comment, symbol.comment)
    }

    // The count stands alone where no attribute is shown.
    fn cut_count(&mut self, symbol: &AdsSymbolInfo<'_>) -> Result<(), AllocError>
        ensures { OnOk result (seen self.new ≡ with_count symbol.now (seen self.old)) }
    {
        if !symbol.flags.has_attributes() || self.left() < 2 {
            return Ok(());
        }
        self.cut(Part::AttributeCount, 2)
    }

    fn cut_attributes(&mut self, symbol: &AdsSymbolInfo<'_>) -> Result<(), AllocError>
        ensures { OnOk result (seen self.new ≡ with_attributes symbol.now (seen self.old)) }
    {
        let mut number: usize = 0;
        for one in symbol.attributes {
            let strings = one.name.len().saturating_add(one.value.len());
            self.cut(Part::Attribute(number), strings.saturating_add(4))?;
            number = number.saturating_add(1);
        }
        Ok(())
    }

    fn cut_former_names(&mut self, symbol: &AdsSymbolInfo<'_>) -> Result<(), AllocError>
        ensures { OnOk result (seen self.new ≡ with_former_names symbol.now (seen self.old)) }
    {
        let mut number: usize = 0;
        for one in symbol.refactor_infos {
            self.cut(Part::FormerName(number), one.name.len().saturating_add(7))?;
            number = number.saturating_add(1);
        }
        Ok(())
    }
    // All that a symbol has, and as the last what is left.
    #[tactic(auto, unfolding(crate::specs::Sections::cut_entry))]
    fn cut_entry(&mut self, symbol: &AdsSymbolInfo<'_>) -> Result<(), AllocError>
        ensures { OnOk result (seen self.new ≡ cut_entry symbol.now (seen self.old)) }
    {
        self.cut_header()?;
        self.cut_strings(symbol)?;
        self.cut_optional(Part::Guid, 16, symbol.guid.is_some())?;
        self.cut_count(symbol)?;
        self.cut_attributes(symbol)?;
        self.cut_optional(Part::ExtendedFlags, 4, symbol.extended_flags.is_some())?;
        self.cut_former_names(symbol)?;
        self.cut(Part::Unread, self.own.len())
    }
}

/// The sections of an entry's own bytes, which this symbol was read from, in order: each byte stands in one of them.
#[tactic(auto, unfolding(crate::specs::Sections::sections_of))]
pub fn sections<'a>(
    alloc: Global,
    own: &'a [u8],
    symbol: &AdsSymbolInfo<'_>,
) -> Result<Vec<Section<'a>>, AllocError>
    ensures value { IfOk result (λ all. all.items ≡ sections_of own.entry symbol.now) }
    ensures whole { IfOk result (λ all. flat_map own_bytes all.items ≡ own.now) }
{
    let mut cutter = Cutter {
        own,
        sections: Vec::new(alloc),
        at: 0,
    };
    cutter.cut_entry(symbol)?;
    Ok(cutter.sections)
}

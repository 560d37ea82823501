//! What a symbol tells, a line a fact, and of a section that it has not, why (docs/FORMAT.md, "The command's text").
#![tactic(auto)]

ghost use Rattle.std.specs.Prelude.{Some};
ghost use Rattle.attribute.specs.Attribute as attribute;
ghost use Rattle.refactor.specs.Refactor as refactor;
ghost use Rattle.facts.specs.Facts.{address_text, attributes_text, because, extended_or, facts_text, guid_or, more_attributes, more_names, names_text, no_more, numbers_text, optional_text, place_text, strings_text};

mod reasons;
pub mod theorems;

use attribute::Attributes;
use flags::symbol_flags::AdsSymbol2Flags;
use reasons::{Because, falls_short};
use refactor::RefactorInfos;
use report::json::Guid;
use std::fmt;
use symbol::AdsSymbolInfo;
use values::{ExtendedNames, FlagNames, FormerName, FourDigits, NameAndValue, OrNone};
use why::{Reason, Reasons};
use wording::Bytes;

/// All that is told of a symbol.
#[derive(Clone, Copy)]
pub struct Facts<'s, 'a> {
    /// Where its entry starts in the upload.
    pub at: usize,
    /// The symbol.
    pub symbol: &'s AdsSymbolInfo<'a>,
    /// Why its sections are there or not.
    pub reasons: &'s Reasons,
}

impl fmt::Display for Facts<'_, '_> {
    ghost output = { λ f. Some (facts_text f.at f.symbol.now f.reasons.now) };

    #[tactic(auto, unfolding(crate::specs::Facts::facts_text))]
    fn fmt<W: fmt::Write>(&self, f: &mut fmt::Formatter<W>) -> fmt::Result {
        let strings = Strings(self.symbol);
        let place = Place(self.at, self.symbol);
        let address = Address(self.symbol);
        let numbers = Numbers(self.symbol);
        let optional = Optional(self.symbol, self.reasons);
        let attributes = AttributeLines(self.symbol.attributes, &self.reasons.attributes);
        let names = NameLines(self.symbol.refactor_infos, &self.reasons.refactor_infos);
        let unread = Bytes(self.symbol.unread.len());
        write!(
            f,
            "{strings}{place}{address}{numbers}{optional}{attributes}{names}unread        {unread}\n"
        )
    }
}

#[derive(Clone, Copy)]
struct Strings<'s, 'a>(&'s AdsSymbolInfo<'a>);

impl fmt::Display for Strings<'_, '_> {
    ghost output = { λ s. Some (strings_text s.0.now) };

    #[tactic(auto, unfolding(crate::specs::Facts::strings_text))]
    fn fmt<W: fmt::Write>(&self, f: &mut fmt::Formatter<W>) -> fmt::Result {
        let name = OrNone(self.0.name);
        let type_name = OrNone(self.0.type_name);
        let comment = OrNone(self.0.comment);
        write!(
            f,
            "name          {name}\ntype          {type_name}\ncomment       {comment}\n"
        )
    }
}

// Where the entry starts and how long it is, and the variable's size.
#[derive(Clone, Copy)]
struct Place<'s, 'a>(usize, &'s AdsSymbolInfo<'a>);

impl fmt::Display for Place<'_, '_> {
    ghost output = { λ p. Some (place_text p.0 p.1.now) };

    #[tactic(auto, unfolding(crate::specs::Facts::place_text))]
    fn fmt<W: fmt::Write>(&self, f: &mut fmt::Formatter<W>) -> fmt::Result {
        let at = self.0;
        let length = Bytes(self.1.length);
        let size = Bytes(self.1.size as usize);
        write!(f, "place         at {at}, {length}\nsize          {size}\n")
    }
}

#[derive(Clone, Copy)]
struct Address<'s, 'a>(&'s AdsSymbolInfo<'a>);

impl fmt::Display for Address<'_, '_> {
    ghost output = { λ a. Some (address_text a.0.now) };

    #[tactic(auto, unfolding(crate::specs::Facts::address_text))]
    fn fmt<W: fmt::Write>(&self, f: &mut fmt::Formatter<W>) -> fmt::Result {
        let group = self.0.index_group.0;
        let offset = self.0.index_offset.0;
        write!(f, "address       group 0x{group:X}, offset 0x{offset:X}\n")
    }
}

// The numbers of the header behind the size.
#[derive(Clone, Copy)]
struct Numbers<'s, 'a>(&'s AdsSymbolInfo<'a>);

impl fmt::Display for Numbers<'_, '_> {
    ghost output = { λ n. Some (numbers_text n.0.now) };

    #[tactic(auto, unfolding(crate::specs::Facts::numbers_text))]
    fn fmt<W: fmt::Write>(&self, f: &mut fmt::Formatter<W>) -> fmt::Result {
        let type_id = self.0.data_type_id;
        let flags = FlagNames(self.0.flags);
        let high = FourDigits(self.0.high);
        write!(
            f,
            "type id       {type_id}\nflags         {flags}\nhigh          0x{high}\n"
        )
    }
}

// The extended flags and the GUID.
#[derive(Clone, Copy)]
struct Optional<'s, 'a>(&'s AdsSymbolInfo<'a>, &'s Reasons);

impl fmt::Display for Optional<'_, '_> {
    ghost output = { λ o. Some (optional_text o.0.now o.1.now) };

    #[tactic(auto, unfolding(crate::specs::Facts::optional_text))]
    fn fmt<W: fmt::Write>(&self, f: &mut fmt::Formatter<W>) -> fmt::Result {
        let extended = ExtendedOr(self.0.extended_flags, &self.1.extended_flags);
        let guid = GuidOr(&self.0.guid, &self.1.guid);
        write!(f, "extended      {extended}\nGUID          {guid}\n")
    }
}

#[derive(Clone, Copy)]
struct ExtendedOr<'s>(Option<AdsSymbol2Flags>, &'s Reason);

impl fmt::Display for ExtendedOr<'_> {
    ghost output = { λ e. Some (extended_or e.1.now e.0) };

    fn fmt<W: fmt::Write>(&self, f: &mut fmt::Formatter<W>) -> fmt::Result {
        match self.0 {
            Some(flags) => ExtendedNames(flags).fmt(f),
            None => {
                let because = Because(self.1);
                write!(f, "none: {because}")
            }
        }
    }
}

#[derive(Clone, Copy)]
struct GuidOr<'s>(&'s Option<[u8; 16]>, &'s Reason);

impl fmt::Display for GuidOr<'_> {
    ghost output = { λ g. Some (guid_or g.1.now g.0.now) };

    fn fmt<W: fmt::Write>(&self, f: &mut fmt::Formatter<W>) -> fmt::Result {
        match self.0 {
            Some(id) => Guid(id).fmt(f),
            None => {
                let because = Because(self.1);
                write!(f, "none: {because}")
            }
        }
    }
}

#[derive(Clone, Copy)]
struct AttributeLines<'s, 'a>(Attributes<'a>, &'s Reason);

impl fmt::Display for AttributeLines<'_, '_> {
    ghost output = { λ a. Some (attributes_text (attribute.left a.0) a.1.now) };

    #[tactic(auto, unfolding(crate::specs::Facts::attributes_text))]
    fn fmt<W: fmt::Write>(&self, f: &mut fmt::Formatter<W>) -> fmt::Result {
        let mut rest = self.0;
        match rest.next() {
            None => {
                let because = Because(self.1);
                write!(f, "attributes    none: {because}\n")
            }
            Some(first) => {
                let first = NameAndValue(first);
                let more = MoreAttributes(rest);
                let no_more = NoMore(self.1);
                write!(f, "attributes    {first}\n{more}{no_more}")
            }
        }
    }
}

// Those behind the first.
#[derive(Clone, Copy)]
struct MoreAttributes<'a>(Attributes<'a>);

impl fmt::Display for MoreAttributes<'_> {
    ghost output = { λ a. Some (more_attributes (attribute.left a.0)) };

    fn fmt<W: fmt::Write>(&self, f: &mut fmt::Formatter<W>) -> fmt::Result {
        for one in self.0 {
            let one = NameAndValue(one);
            write!(f, "              {one}\n")?;
        }
        Ok(())
    }
}

// Why attributes that were announced are not shown, if there are any.
#[derive(Clone, Copy)]
struct NoMore<'s>(&'s Reason);

impl fmt::Display for NoMore<'_> {
    ghost output = { λ n. Some (no_more n.0.now) };

    fn fmt<W: fmt::Write>(&self, f: &mut fmt::Formatter<W>) -> fmt::Result {
        if !falls_short(self.0) {
            return Ok(());
        }
        let because = Because(self.0);
        write!(f, "              no more: {because}\n")
    }
}

#[derive(Clone, Copy)]
struct NameLines<'s, 'a>(RefactorInfos<'a>, &'s Reason);

impl fmt::Display for NameLines<'_, '_> {
    ghost output = { λ n. Some (names_text (refactor.left n.0) n.1.now) };

    #[tactic(auto, unfolding(crate::specs::Facts::names_text))]
    fn fmt<W: fmt::Write>(&self, f: &mut fmt::Formatter<W>) -> fmt::Result {
        let mut rest = self.0;
        match rest.next() {
            None => {
                let because = Because(self.1);
                write!(f, "former names  none: {because}\n")
            }
            Some(first) => {
                let first = FormerName(first.name);
                let more = MoreNames(rest);
                write!(f, "former names  {first}\n{more}")
            }
        }
    }
}

// Those behind the first.
#[derive(Clone, Copy)]
struct MoreNames<'a>(RefactorInfos<'a>);

impl fmt::Display for MoreNames<'_> {
    ghost output = { λ n. Some (more_names (refactor.left n.0)) };

    fn fmt<W: fmt::Write>(&self, f: &mut fmt::Formatter<W>) -> fmt::Result {
        for one in self.0 {
            let name = FormerName(one.name);
            write!(f, "              {name}\n")?;
        }
        Ok(())
    }
}

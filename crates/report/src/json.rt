//! What stands in JSON of a symbol, and of an entry that was refused (docs/FORMAT.md, "The command's text").
ghost use Rattle.std.specs.Prelude.{◌++◌, Some};
ghost use Rattle.wording.specs.Text.{pair};
ghost use Rattle.attribute.specs.Attribute as attribute;
ghost use Rattle.refactor.specs.Refactor as refactor;
ghost use Rattle.report.specs.Json.{refused_text, figures_text, strings_text, numbers_text, sections_text, symbol_text, guid_text, guid_or_null, attribute_text, attributes_text, more_attributes, former_text, formers_text, more_formers, extended_text};

use attribute::{AdsAttribute, Attributes};
use flags::symbol_flags::AdsSymbol2Flags;
use refactor::RefactorInfos;
use refusal::{Figures, Refusal};
use std::fmt;
use symbol::AdsSymbolInfo;
use wording::strings::Quoted;
use wording::{InWords, Pair};

/// An entry that was refused, in an object.
#[derive(Clone, Copy)]
pub struct RefusedEntry<'a> {
    /// Where it begins in the upload.
    pub place: usize,
    /// Why it was refused.
    pub why: &'a Refusal,
}

impl fmt::Display for RefusedEntry<'_> {
    ghost output = { λ r. Some (refused_text r.place r.why.now) };

    #[tactic(auto, unfolding(crate::specs::Json::refused_text))]
    fn fmt<W: fmt::Write>(&self, f: &mut fmt::Formatter<W>) -> fmt::Result {
        let place = self.place;
        let figures = FigureMembers(self.why.figures());
        let reason = InWords(self.why);
        write!(f, "{{\"place\":{place},{figures},\"reason\":\"{reason}\"}}")
    }
}

#[derive(Clone, Copy)]
struct FigureMembers(Figures);

impl fmt::Display for FigureMembers {
    ghost output = { λ m. Some (figures_text m.0) };

    #[tactic(auto, unfolding(crate::specs::Json::figures_text))]
    fn fmt<W: fmt::Write>(&self, f: &mut fmt::Formatter<W>) -> fmt::Result {
        let number = self.0.number;
        let expected = self.0.expected;
        let got = self.0.got;
        write!(
            f,
            "\"refused\":{number},\"expected\":{expected},\"got\":{got}"
        )
    }
}

/// A symbol, in an object.
#[derive(Clone, Copy)]
pub struct SymbolEntry<'a> {
    /// Where it begins in the upload.
    pub place: usize,
    /// The symbol.
    pub symbol: &'a AdsSymbolInfo<'a>,
}

impl fmt::Display for SymbolEntry<'_> {
    ghost output = { λ e. Some (symbol_text e.place e.symbol.now) };

    #[tactic(auto, unfolding(crate::specs::Json::symbol_text))]
    fn fmt<W: fmt::Write>(&self, f: &mut fmt::Formatter<W>) -> fmt::Result {
        let place = self.place;
        let strings = Strings(self.symbol);
        let numbers = Numbers(self.symbol);
        let sections = Sections(self.symbol);
        write!(f, "{{\"place\":{place},{strings},{numbers},{sections}}}")
    }
}

#[derive(Clone, Copy)]
struct Strings<'a>(&'a AdsSymbolInfo<'a>);

impl fmt::Display for Strings<'_> {
    ghost output = { λ s. Some (strings_text s.0.now) };

    #[tactic(auto, unfolding(crate::specs::Json::strings_text))]
    fn fmt<W: fmt::Write>(&self, f: &mut fmt::Formatter<W>) -> fmt::Result {
        let symbol = self.0;
        let length = symbol.length;
        let name = Quoted(symbol.name);
        let type_name = Quoted(symbol.type_name);
        let comment = Quoted(symbol.comment);
        write!(
            f,
            "\"length\":{length},\"name\":{name},\"type\":{type_name},\"comment\":{comment}"
        )
    }
}

#[derive(Clone, Copy)]
struct Numbers<'a>(&'a AdsSymbolInfo<'a>);

impl fmt::Display for Numbers<'_> {
    ghost output = { λ s. Some (numbers_text s.0.now) };

    #[tactic(auto, unfolding(crate::specs::Json::numbers_text))]
    fn fmt<W: fmt::Write>(&self, f: &mut fmt::Formatter<W>) -> fmt::Result {
        let symbol = self.0;
        let size = symbol.size;
        let group = symbol.index_group.0;
        let offset = symbol.index_offset.0;
        let type_id = symbol.data_type_id;
        let flags = symbol.flags.0;
        let high = symbol.high;
        write!(
            f,
            "\"size\":{size},\"group\":{group},\"offset\":{offset},\"type_id\":{type_id},\"flags\":{flags},\"high\":{high}"
        )
    }
}

#[derive(Clone, Copy)]
struct Sections<'a>(&'a AdsSymbolInfo<'a>);

impl fmt::Display for Sections<'_> {
    ghost output = { λ s. Some (sections_text s.0.now) };

    #[tactic(auto, unfolding(crate::specs::Json::sections_text))]
    fn fmt<W: fmt::Write>(&self, f: &mut fmt::Formatter<W>) -> fmt::Result {
        let symbol = self.0;
        let extended = ExtendedOrNull(symbol.extended_flags);
        let guid = GuidOrNull(&symbol.guid);
        let attributes = AttributeObjects(symbol.attributes);
        let former = FormerNames(symbol.refactor_infos);
        let unread = symbol.unread.len();
        write!(
            f,
            "\"extended_flags\":{extended},\"guid\":{guid},\"attributes\":[{attributes}],\"former_names\":[{former}],\"unread\":{unread}"
        )
    }
}

#[derive(Clone, Copy)]
struct ExtendedOrNull(Option<AdsSymbol2Flags>);

impl fmt::Display for ExtendedOrNull {
    ghost output = { λ x. Some (extended_text x.0) };

    fn fmt<W: fmt::Write>(&self, f: &mut fmt::Formatter<W>) -> fmt::Result {
        match self.0 {
            Some(flags) => {
                let flags = flags.0;
                write!(f, "{flags}")
            }
            None => write!(f, "null"),
        }
    }
}

/// A GUID's usual text: its first three fields are little-endian numbers, the rest bytes.
#[derive(Clone, Copy)]
pub struct Guid<'a>(pub &'a [u8; 16]);

impl fmt::Display for Guid<'_> {
    ghost output = { λ g. Some (guid_text g.0.now) };

    #[tactic(auto, unfolding(crate::specs::Json::guid_text))]
    fn fmt<W: fmt::Write>(&self, f: &mut fmt::Formatter<W>) -> fmt::Result {
        let [a, b, c, d, e, g, h, i, j, k, l, m, n, o, p, q] = *self.0;
        let (dc, ba) = (Two(d, c), Two(b, a));
        let (ge, ih, jk) = (Two(g, e), Two(i, h), Two(j, k));
        let (lm, no, pq) = (Two(l, m), Two(n, o), Two(p, q));
        write!(f, "{{{dc}{ba}-{ge}-{ih}-{jk}-{lm}{no}{pq}}}")
    }
}

// Two bytes in hexadecimal digits.
#[derive(Clone, Copy)]
struct Two(u8, u8);

impl fmt::Display for Two {
    ghost output = { λ t. Some (pair t.0 ++ pair t.1) };

    fn fmt<W: fmt::Write>(&self, f: &mut fmt::Formatter<W>) -> fmt::Result {
        let (first, second) = (Pair(self.0), Pair(self.1));
        write!(f, "{first}{second}")
    }
}

/// A GUID's usual text in quotes, or `null`.
#[derive(Clone, Copy)]
pub struct GuidOrNull<'a>(pub &'a Option<[u8; 16]>);

impl fmt::Display for GuidOrNull<'_> {
    ghost output = { λ g. Some (guid_or_null g.0.now) };

    fn fmt<W: fmt::Write>(&self, f: &mut fmt::Formatter<W>) -> fmt::Result {
        match self.0 {
            Some(guid) => {
                let guid = Guid(guid);
                write!(f, "\"{guid}\"")
            }
            None => write!(f, "null"),
        }
    }
}

#[derive(Clone, Copy)]
struct AttributeObject<'a>(AdsAttribute<'a>);

impl fmt::Display for AttributeObject<'_> {
    ghost output = { λ a. Some (attribute_text a.0) };

    fn fmt<W: fmt::Write>(&self, f: &mut fmt::Formatter<W>) -> fmt::Result {
        let name = Quoted(self.0.name);
        let value = Quoted(self.0.value);
        write!(f, "{{\"name\":{name},\"value\":{value}}}")
    }
}

/// Attributes as objects, with commas between them.
#[derive(Clone, Copy)]
pub struct AttributeObjects<'a>(pub Attributes<'a>);

impl fmt::Display for AttributeObjects<'_> {
    ghost output = { λ a. Some (attributes_text (attribute.left a.0)) };

    fn fmt<W: fmt::Write>(&self, f: &mut fmt::Formatter<W>) -> fmt::Result {
        let mut rest = self.0;
        match rest.next() {
            None => Ok(()),
            Some(first) => {
                let first = AttributeObject(first);
                let more = MoreAttributes(rest);
                write!(f, "{first}{more}")
            }
        }
    }
}

// Those behind the first, with a comma before each.
#[derive(Clone, Copy)]
struct MoreAttributes<'a>(Attributes<'a>);

impl fmt::Display for MoreAttributes<'_> {
    ghost output = { λ a. Some (more_attributes (attribute.left a.0)) };

    fn fmt<W: fmt::Write>(&self, f: &mut fmt::Formatter<W>) -> fmt::Result {
        for one in self.0 {
            let one = AttributeObject(one);
            write!(f, ",{one}")?;
        }
        Ok(())
    }
}

#[derive(Clone, Copy)]
struct FormerNames<'a>(RefactorInfos<'a>);

impl fmt::Display for FormerNames<'_> {
    ghost output = { λ r. Some (formers_text (refactor.left r.0)) };

    fn fmt<W: fmt::Write>(&self, f: &mut fmt::Formatter<W>) -> fmt::Result {
        let mut rest = self.0;
        match rest.next() {
            None => Ok(()),
            Some(first) => {
                let first = Quoted(first.name);
                let more = MoreNames(rest);
                write!(f, "{first}{more}")
            }
        }
    }
}

// Those behind the first, with a comma before each.
#[derive(Clone, Copy)]
struct MoreNames<'a>(RefactorInfos<'a>);

impl fmt::Display for MoreNames<'_> {
    ghost output = { λ r. Some (more_formers (refactor.left r.0)) };

    fn fmt<W: fmt::Write>(&self, f: &mut fmt::Formatter<W>) -> fmt::Result {
        for one in self.0 {
            let one = Quoted(one.name);
            write!(f, ",{one}")?;
        }
        Ok(())
    }
}

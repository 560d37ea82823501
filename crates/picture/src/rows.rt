//! The picture of an entry's bytes: rows of hexadecimal with the sections named beside them.
ghost use Rattle.std.specs.Prelude.{◌≡◌, ◌++◌, ◌-◌, ◌<◌, ◌≤◌, Some, codes, nat_le};
ghost use Rattle.std.specs.List.{flat_map, join_by, list_any};
ghost use Rattle.wording.specs.Text.{pair};
ghost use Rattle.picture.specs.Rows.{behind, by_turns, bytes_within, colour, ends_at, ends_by, label, name_text, paint, pairs_text, picture_text, row_text, rule, section_text, unpaint, within};

use report::cells::Number;
use sections::{Part, Section};
use std::fmt;
use wording::strings::Spaces;
use wording::{Bytes, Pair};

const ROW: usize = 16;

/// The picture of an entry.
#[derive(Clone, Copy)]
pub(crate) struct Picture<'p, 'a> {
    /// How many bytes the entry has.
    pub length: usize,
    /// Its sections.
    pub sections: &'p [Section<'a>],
    /// Whether they have colours.
    pub coloured: bool,
}

impl fmt::Display for Picture<'_, '_> {
    ghost output = { λ p. Some (picture_text p.coloured p.length p.sections.now) };

    fn fmt<W: fmt::Write>(&self, f: &mut fmt::Formatter<W>) -> fmt::Result {
        let length = self.length;
        let mut left = self.sections;
        for number in 0..length.div_ceil(ROW) {
            let start = ROW * number;
            let end = start + ROW.min(length - start);
            left = behind(start, left);
            let row = Row {
                start,
                end,
                sections: within(end, left),
                coloured: self.coloured,
            };
            write!(f, "{row}")?;
        }
        Ok(())
    }
}

// Sections without those that end before a place.
fn behind<'p, 'a>(start: usize, sections: &'p [Section<'a>]) -> &'p [Section<'a>]
    ensures { result.now ≡ behind start sections.now }
{
    for (ended, section) in sections.iter().enumerate() {
        if !ends_by(start, section) {
            return &sections[ended..];
        }
    }
    &sections[sections.len()..]
}

// Whether a section ends at a place or before it.
fn ends_by(start: usize, section: &Section<'_>) -> bool
    ensures { result ≡ ends_by start section.now }
{
    section.bytes.len() <= start.saturating_sub(section.at)
}

// Those from the first on that begin before a place.
fn within<'p, 'a>(end: usize, sections: &'p [Section<'a>]) -> &'p [Section<'a>]
    ensures { result.now ≡ within end sections.now }
{
    for (begun, section) in sections.iter().enumerate() {
        if section.at >= end {
            return &sections[..begun];
        }
    }
    sections
}

// A row of the picture, with the sections that stand in it.
#[derive(Clone, Copy)]
struct Row<'p, 'a> {
    start: usize,
    end: usize,
    sections: &'p [Section<'a>],
    coloured: bool,
}

impl fmt::Display for Row<'_, '_> {
    ghost output = { λ r. Some (row_text r.coloured r.start r.end r.sections.now) };

    #[tactic(auto, unfolding(crate::specs::Rows::row_text))]
    fn fmt<W: fmt::Write>(&self, f: &mut fmt::Formatter<W>) -> fmt::Result {
        let place = Number {
            number: self.start,
            column: 6,
        };
        let drawn = Drawn(*self);
        let ended = rule(some_end_at(self.end, self.sections));
        let gap = Spaces(3 * ROW.saturating_sub(self.end.saturating_sub(self.start)));
        let names = Names(*self);
        write!(f, "{place}  {drawn}{ended}{gap} {names}\n")
    }
}

// Whether a section ends at a place.
fn some_end_at(end: usize, sections: &[Section<'_>]) -> bool
    ensures { result ≡ list_any (ends_at end) sections.now }
{
    for section in sections {
        if end.saturating_sub(section.at) == section.bytes.len() {
            return true;
        }
    }
    false
}

// A rule, or a space in its place.
fn rule(there: bool) -> &'static str
    ensures { result.now ≡ rule there }
{
    if there { "|" } else { " " }
}

// The bytes of the row's sections.
#[derive(Clone, Copy)]
struct Drawn<'p, 'a>(Row<'p, 'a>);

impl fmt::Display for Drawn<'_, '_> {
    ghost output = { λ d. Some (flat_map (section_text d.0.coloured d.0.start d.0.end) d.0.sections.now) };

    fn fmt<W: fmt::Write>(&self, f: &mut fmt::Formatter<W>) -> fmt::Result {
        for section in self.0.sections {
            let drawn = SectionBytes {
                start: self.0.start,
                end: self.0.end,
                coloured: self.0.coloured,
                section: *section,
            };
            write!(f, "{drawn}")?;
        }
        Ok(())
    }
}

// The bytes of a section that stand in a row, with a rule before its first.
#[derive(Clone, Copy)]
struct SectionBytes<'a> {
    start: usize,
    end: usize,
    coloured: bool,
    section: Section<'a>,
}

impl fmt::Display for SectionBytes<'_> {
    ghost output = { λ s. Some (section_text s.coloured s.start s.end s.section) };

    #[tactic(auto, unfolding(crate::specs::Rows::section_text))]
    fn fmt<W: fmt::Write>(&self, f: &mut fmt::Formatter<W>) -> fmt::Result {
        let rule = rule(self.section.at >= self.start);
        let paint = Paint {
            coloured: self.coloured,
            part: self.section.part,
        };
        let pairs = Pairs(bytes_within(self.start, self.end, &self.section));
        let unpaint = Unpaint(self.coloured);
        write!(f, "{rule}{paint}{pairs}{unpaint}")
    }
}

fn bytes_within<'a>(start: usize, end: usize, section: &Section<'a>) -> &'a [u8]
    ensures { result.now ≡ bytes_within start end section.now }
{
    let last = end.saturating_sub(section.at).min(section.bytes.len());
    let first = start.saturating_sub(section.at).min(last);
    &section.bytes[first..last]
}

// Bytes in two hexadecimal digits each.
#[derive(Clone, Copy)]
struct Pairs<'a>(&'a [u8]);

impl fmt::Display for Pairs<'_> {
    ghost output = { λ p. Some (pairs_text p.0.now) };

    #[tactic(auto, unfolding(crate::specs::Rows::pairs_text))]
    fn fmt<W: fmt::Write>(&self, f: &mut fmt::Formatter<W>) -> fmt::Result {
        match self.0.split_first() {
            None => Ok(()),
            Some((first, more)) => {
                let first = Pair(*first);
                let more = MorePairs(more);
                write!(f, "{first}{more}")
            }
        }
    }
}

// Those behind the first, with a space before each.
#[derive(Clone, Copy)]
struct MorePairs<'a>(&'a [u8]);

impl fmt::Display for MorePairs<'_> {
    ghost output = { λ p. Some (flat_map (λ b. codes " " ++ pair b) p.0.now) };

    fn fmt<W: fmt::Write>(&self, f: &mut fmt::Formatter<W>) -> fmt::Result {
        for byte in self.0 {
            let pair = Pair(*byte);
            write!(f, " {pair}")?;
        }
        Ok(())
    }
}

// The names of a row's sections.
#[derive(Clone, Copy)]
struct Names<'p, 'a>(Row<'p, 'a>);

impl fmt::Display for Names<'_, '_> {
    ghost output = { λ n. Some (join_by (name_text n.0.coloured n.0.start) (codes " | ") n.0.sections.now) };

    fn fmt<W: fmt::Write>(&self, f: &mut fmt::Formatter<W>) -> fmt::Result {
        match self.0.sections.split_first() {
            None => Ok(()),
            Some((first, more)) => {
                let first = SectionName {
                    start: self.0.start,
                    coloured: self.0.coloured,
                    section: *first,
                };
                let more = MoreNames {
                    start: self.0.start,
                    coloured: self.0.coloured,
                    sections: more,
                };
                write!(f, "{first}{more}")
            }
        }
    }
}

// Those behind the first.
#[derive(Clone, Copy)]
struct MoreNames<'p, 'a> {
    start: usize,
    coloured: bool,
    sections: &'p [Section<'a>],
}

impl fmt::Display for MoreNames<'_, '_> {
    ghost output = { λ n. Some (flat_map (λ x. codes " | " ++ name_text n.coloured n.start x) n.sections.now) };

    fn fmt<W: fmt::Write>(&self, f: &mut fmt::Formatter<W>) -> fmt::Result {
        for section in self.sections {
            let name = SectionName {
                start: self.start,
                coloured: self.coloured,
                section: *section,
            };
            write!(f, " | {name}")?;
        }
        Ok(())
    }
}

// What a section is called in a row. Dots say that it began in a row above.
#[derive(Clone, Copy)]
struct SectionName<'a> {
    start: usize,
    coloured: bool,
    section: Section<'a>,
}

impl fmt::Display for SectionName<'_> {
    ghost output = { λ n. Some (name_text n.coloured n.start n.section) };

    #[tactic(auto, unfolding(crate::specs::Rows::name_text))]
    fn fmt<W: fmt::Write>(&self, f: &mut fmt::Formatter<W>) -> fmt::Result {
        let part = self.section.part;
        let paint = Paint {
            coloured: self.coloured,
            part,
        };
        let unpaint = Unpaint(self.coloured);
        if self.section.at < self.start {
            return write!(f, "{paint}..{part}{unpaint}");
        }
        let label = Label(part, self.section.bytes.len());
        write!(f, "{paint}{label}{unpaint}")
    }
}

// A part by its name, and how many bytes are unread.
#[derive(Clone, Copy)]
struct Label(Part, usize);

impl fmt::Display for Label {
    ghost output = { λ l. Some (label l.0 l.1) };

    fn fmt<W: fmt::Write>(&self, f: &mut fmt::Formatter<W>) -> fmt::Result {
        match self.0 {
            Part::Unread => {
                let length = Bytes(self.1);
                write!(f, "unread, {length}")
            }
            part => write!(f, "{part}"),
        }
    }
}

// Begins text in the colour of a part, if there are colours.
#[derive(Clone, Copy)]
struct Paint {
    coloured: bool,
    part: Part,
}

impl fmt::Display for Paint {
    ghost output = { λ p. Some (paint p.coloured p.part) };

    #[tactic(auto, unfolding(crate::specs::Rows::paint))]
    fn fmt<W: fmt::Write>(&self, f: &mut fmt::Formatter<W>) -> fmt::Result {
        if !self.coloured {
            return Ok(());
        }
        let colour = colour(self.part);
        write!(f, "\u{1B}[{colour}m")
    }
}

// Ends it.
#[derive(Clone, Copy)]
struct Unpaint(bool);

impl fmt::Display for Unpaint {
    ghost output = { λ u. Some (unpaint u.0) };

    #[tactic(auto, unfolding(crate::specs::Rows::unpaint))]
    fn fmt<W: fmt::Write>(&self, f: &mut fmt::Formatter<W>) -> fmt::Result {
        if !self.0 {
            return Ok(());
        }
        write!(f, "\u{1B}[0m")
    }
}

// Records that stand side by side get the first or the second by turns.
fn by_turns(number: usize, even: &'static str, odd: &'static str) -> &'static str
    ensures { result.now ≡ by_turns number even.now odd.now }
{
    if number % 2 == 0 { even } else { odd }
}

// The colour of a part, as a terminal is told it. What is unread is reversed, since nothing else says that these bytes mean
// nothing here.
#[tactic(auto, unfolding(crate::specs::Rows::colour))]
fn colour(part: Part) -> &'static str
    ensures { result.now ≡ colour part }
{
    match part {
        Part::Length | Part::AttributeCount => "36",
        Part::Group => "33",
        Part::Offset | Part::Guid => "32",
        Part::Size => "35",
        Part::TypeId | Part::ExtendedFlags => "94",
        Part::Flags => "93",
        Part::High => "90",
        Part::StringLengths | Part::Type => "96",
        Part::Name => "92",
        Part::Comment => "95",
        Part::Attribute(number) => by_turns(number, "33", "96"),
        Part::FormerName(number) => by_turns(number, "35", "92"),
        Part::Unread => "7;31",
    }
}

//! How a refusal is told in words (docs/FORMAT.md, "Refusals").
#![tactic(auto)]

ghost use Rattle.std.specs.Prelude.{◌≡◌, Some};
ghost use Rattle.refusal.specs.Text.{phrases_of, text_of, alone, one, two};
ghost use Rattle.refusal.specs.Phrased.{Phrased};

use crate::Refusal;
use std::fmt;

/// The words of a refusal and its figures, in the order of its text.
#[derive(Clone, Copy)]
pub struct Words {
    /// The words before the first figure.
    pub before: &'static str,
    /// The first figure of the text.
    pub first: Option<usize>,
    /// The words behind it.
    pub between: &'static str,
    /// The second figure of the text.
    pub second: Option<usize>,
    /// The words behind that.
    pub after: &'static str,
}

fn alone(before: &'static str) -> Words
    ensures { Phrased (alone before.now) result }
{
    Words {
        before,
        first: None,
        between: "",
        second: None,
        after: "",
    }
}

fn one(before: &'static str, figure: usize, between: &'static str) -> Words
    ensures { Phrased (one before.now figure between.now) result }
{
    Words {
        before,
        first: Some(figure),
        between,
        second: None,
        after: "",
    }
}

fn two(
    before: &'static str,
    first: usize,
    between: &'static str,
    second: usize,
    after: &'static str,
) -> Words
    ensures { Phrased (two before.now first between.now second after.now) result }
{
    Words {
        before,
        first: Some(first),
        between,
        second: Some(second),
        after,
    }
}

impl Refusal {
    /// What the refusal's text is made of.
    pub fn words(self) -> Words
        ensures { Phrased (phrases_of self) result }
    {
        match self {
            Refusal::UnexpectedLength { needed, present } => two(
                "unexpected length: ",
                needed,
                " needed, ",
                present,
                " present",
            ),
            Refusal::TooShort { needed, present } => two(
                "too short: ",
                needed,
                " needed, ",
                present,
                " present",
            ),
            Refusal::EntryLengthMismatch { needed, available } => two(
                "entry length mismatch: ",
                needed,
                " claimed or needed, ",
                available,
                " available",
            ),
            Refusal::ClaimBelowHeader { header, claim } => two(
                "claim below the header: ",
                header,
                " in the header, ",
                claim,
                " claimed",
            ),
            Refusal::TooLarge { length } => one("too large: 16777216 at most, ", length, " given"),
            Refusal::OutputTooSmall { needed, lent } => two(
                "output too small: ",
                needed,
                " needed, ",
                lent,
                " lent",
            ),
            Refusal::TooLong { most, actual } => two(
                "string or count too long: ",
                most,
                " at most, ",
                actual,
                " given",
            ),
            Refusal::SectionsDisagree { section } => one(
                "symbol flags and sections disagree: section ",
                section,
                "",
            ),
            Refusal::BadBlock { count, good } => two(
                "block is not its count of good records: ",
                count,
                " counted, ",
                good,
                " good at its start",
            ),
            Refusal::ZeroEntryLength => alone("zero entry length: 1 at least, 0 claimed"),
            Refusal::BadText { place, kind } => two("text: fault ", kind, " at byte ", place, ""),
            Refusal::BadHexadecimal => alone("bad hexadecimal line"),
            Refusal::NameNotFound => alone("name not found"),
            Refusal::NoSuchNumber { count, asked } => two(
                "no such number: ",
                count,
                " there, ",
                asked,
                " asked",
            ),
            Refusal::TooDeep => alone(
                "data type entries nest too deep: 16 deep at most, 17 deep met",
            ),
            Refusal::EndByte { place, byte } => two(
                "end byte is not 0: ",
                byte as usize,
                " at byte ",
                place,
                "",
            ),
            Refusal::NotInSheet { entry, reason } => two(
                "not for a sheet: entry ",
                entry,
                ", reason ",
                reason,
                "",
            ),
            Refusal::BadSheet { row, column } => two(
                "bad sheet: row ",
                row,
                ", column ",
                column,
                "",
            ),
            Refusal::NotPlain { place } => one("not in plain form: byte ", place, " departs"),
            Refusal::BadPath { place } => one("no path of a variable: fault at byte ", place, ""),
            Refusal::NoSuchMember { place } => one(
                "name not found: no member at byte ",
                place,
                " of the path",
            ),
            Refusal::NoSuchType { place } => one(
                "name not found: no data type at byte ",
                place,
                " of the path",
            ),
            Refusal::WrongDimensions { place, dimensions } => two(
                "wrong dimensions: subscripts at byte ",
                place,
                " of the path, ",
                dimensions,
                " dimensions there",
            ),
            Refusal::NoOffset { place, flag } => two(
                "no offset: flag ",
                flag,
                " at byte ",
                place,
                " of the path",
            ),
            Refusal::OffsetTooLarge { offset } => one(
                "index offset too large: 4294967295 at most, ",
                offset,
                " here",
            ),
            Refusal::TooManyAliases { place } => one(
                "too many aliases: more than 16 at byte ",
                place,
                " of the path",
            ),
        }
    }
}

impl fmt::Display for Refusal {
    ghost output = { λ why. Some (text_of why) };

    fn fmt<W: fmt::Write>(&self, f: &mut fmt::Formatter<W>) -> fmt::Result {
        let Words {
            before,
            first,
            between,
            second,
            after,
        } = self.words();
        f.write_str(before)?;
        if let Some(figure) = first {
            write!(f, "{figure}")?;
        }
        f.write_str(between)?;
        if let Some(figure) = second {
            write!(f, "{figure}")?;
        }
        f.write_str(after)
    }
}

//! The cells of a table, each beside as many spaces as are left of its column (docs/FORMAT.md, "The command's text").
ghost use Rattle.std.specs.Prelude.{◌≡◌, ◌≤◌, Bool, Some, length, max};
ghost use Rattle.std.specs.Fmt.{digits};
ghost use Rattle.report.specs.Cells.{at_left, at_right, number_cell, hexadecimal_cell, name_cell, refused_row};

use refusal::Refusal;
use std::fmt;
use wording::InWords;
use wording::strings::{Shown, Spaces, shown_width};

/// How many digits a number has in a base, of which there is none below 2.
#[tactic(auto, using(crate::proofs::Digits::no_more, crate::proofs::Digits::one_more, crate::proofs::Digits::counted))]
pub fn digits(number: usize, base: usize) -> usize
    ensures same { (upper : Bool) → result ≡ length (digits (max base 2) upper number) }
    ensures most { result ≤ 64 }
{
    let base = base.max(2);
    let mut rest = number;
    for count in 1..64usize {
        rest /= base;
        if rest == 0 {
            return count;
        }
    }
    64
}

/// A number at the right of its column.
#[derive(Clone, Copy)]
pub struct Number {
    /// The number.
    pub number: usize,
    /// How wide the column is.
    pub column: usize,
}

impl fmt::Display for Number {
    ghost output = { λ n. Some (number_cell n.column n.number) };

    #[tactic(auto, unfolding(crate::specs::Cells::number_cell))]
    fn fmt<W: fmt::Write>(&self, f: &mut fmt::Formatter<W>) -> fmt::Result {
        let number = self.number;
        let gap = Spaces(self.column.saturating_sub(digits(number, 10)));
        write!(f, "{gap}{number}")
    }
}

/// A number in hexadecimal digits, at the right of its column.
#[derive(Clone, Copy)]
pub struct Hexadecimal {
    /// The number.
    pub number: u32,
    /// How wide the column is.
    pub column: usize,
}

impl fmt::Display for Hexadecimal {
    ghost output = { λ n. Some (hexadecimal_cell n.column n.number) };

    #[tactic(auto, unfolding(crate::specs::Cells::hexadecimal_cell))]
    fn fmt<W: fmt::Write>(&self, f: &mut fmt::Formatter<W>) -> fmt::Result {
        let number = self.number;
        let width = digits(number as usize, 16) + 2;
        let gap = Spaces(self.column.saturating_sub(width));
        write!(f, "{gap}0x{number:X}")
    }
}

/// A name at the left of its column.
#[derive(Clone, Copy)]
pub struct Name<'a> {
    /// The name.
    pub name: &'a [u8],
    /// How wide the column is.
    pub column: usize,
}

impl fmt::Display for Name<'_> {
    ghost output = { λ n. Some (name_cell n.column n.name.now) };

    #[tactic(auto, unfolding(crate::specs::Cells::name_cell))]
    fn fmt<W: fmt::Write>(&self, f: &mut fmt::Formatter<W>) -> fmt::Result {
        let name = Shown(self.name);
        let gap = Spaces(self.column.saturating_sub(shown_width(self.name)));
        write!(f, "{name}{gap}")
    }
}

/// A word of ASCII at the left of a column, and how wide that is.
#[derive(Clone, Copy)]
pub struct AtLeft(pub &'static str, pub usize);

impl fmt::Display for AtLeft {
    ghost output = { λ h. Some (at_left h.1 (length h.0.now) h.0.now) };

    fn fmt<W: fmt::Write>(&self, f: &mut fmt::Formatter<W>) -> fmt::Result {
        let AtLeft(word, column) = *self;
        let gap = Spaces(column.saturating_sub(word.len()));
        write!(f, "{word}{gap}")
    }
}

/// A word of ASCII at the right of a column, and how wide that is.
#[derive(Clone, Copy)]
pub struct AtRight(pub &'static str, pub usize);

impl fmt::Display for AtRight {
    ghost output = { λ h. Some (at_right h.1 (length h.0.now) h.0.now) };

    fn fmt<W: fmt::Write>(&self, f: &mut fmt::Formatter<W>) -> fmt::Result {
        let AtRight(word, column) = *self;
        let gap = Spaces(column.saturating_sub(word.len()));
        write!(f, "{gap}{word}")
    }
}

/// A place in its column, and why the entry there was refused.
#[derive(Clone, Copy)]
pub struct RefusedRow<'a> {
    /// How wide the column is.
    pub column: usize,
    /// Where the entry begins in the upload.
    pub place: usize,
    /// Why it was refused.
    pub why: &'a Refusal,
}

impl fmt::Display for RefusedRow<'_> {
    ghost output = { λ r. Some (refused_row r.column r.place r.why.now) };

    #[tactic(auto, unfolding(crate::specs::Cells::refused_row))]
    fn fmt<W: fmt::Write>(&self, f: &mut fmt::Formatter<W>) -> fmt::Result {
        let place = Number {
            number: self.place,
            column: self.column,
        };
        let why = InWords(self.why);
        write!(f, "{place}  {why}")
    }
}

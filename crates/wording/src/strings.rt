// Names and values, which an upload holds in Windows-1252, in UTF-8.
ghost use Rattle.std.specs.Prelude.{◌≡◌, Some, replicate};
ghost use Rattle.wording.specs.Text.{exact, shown, shown_width, quoted, exact_char, shown_char, json_char};

use crate::Pair;
use std::fmt;
use text::code_point;

/// As UTF-8, for programs.
#[derive(Clone, Copy)]
pub struct Exact<'a>(pub &'a [u8]);

impl fmt::Display for Exact<'_> {
    ghost output = { λ s. Some (exact s.0.now) };

    fn fmt<W: fmt::Write>(&self, f: &mut fmt::Formatter<W>) -> fmt::Result {
        for b in self.0 {
            let c = code_point(*b);
            write!(f, "{c}")?;
        }
        Ok(())
    }
}

// A byte for a terminal.
#[derive(Clone, Copy)]
struct ShownChar(u8);

impl fmt::Display for ShownChar {
    ghost output = { λ b. Some (shown_char b.0) };

    fn fmt<W: fmt::Write>(&self, f: &mut fmt::Formatter<W>) -> fmt::Result {
        let c = code_point(self.0);
        if c.is_control() {
            let pair = Pair(self.0);
            return write!(f, "\\x{pair}");
        }
        write!(f, "{c}")
    }
}

/// As UTF-8 for a terminal, with controls, which could move its cursor, as `\x1B`. What is left takes one column a
/// character, since Windows-1252 has no wide and no combining ones.
#[derive(Clone, Copy)]
pub struct Shown<'a>(pub &'a [u8]);

impl fmt::Display for Shown<'_> {
    ghost output = { λ s. Some (shown s.0.now) };

    fn fmt<W: fmt::Write>(&self, f: &mut fmt::Formatter<W>) -> fmt::Result {
        for b in self.0 {
            let c = ShownChar(*b);
            write!(f, "{c}")?;
        }
        Ok(())
    }
}

// A byte in a string of JSON.
#[derive(Clone, Copy)]
struct JsonChar(u8);

impl fmt::Display for JsonChar {
    ghost output = { λ b. Some (json_char b.0) };

    fn fmt<W: fmt::Write>(&self, f: &mut fmt::Formatter<W>) -> fmt::Result {
        if self.0 == b'"' {
            return write!(f, "\\\"");
        }
        if self.0 == b'\\' {
            return write!(f, "\\\\");
        }
        let c = code_point(self.0);
        if c.is_control() {
            let pair = Pair(self.0);
            return write!(f, "\\u00{pair}");
        }
        write!(f, "{c}")
    }
}

/// As a string of JSON.
#[derive(Clone, Copy)]
pub struct Quoted<'a>(pub &'a [u8]);

impl fmt::Display for Quoted<'_> {
    ghost output = { λ s. Some (quoted s.0.now) };

    fn fmt<W: fmt::Write>(&self, f: &mut fmt::Formatter<W>) -> fmt::Result {
        write!(f, "\"")?;
        for b in self.0 {
            let c = JsonChar(*b);
            write!(f, "{c}")?;
        }
        write!(f, "\"")
    }
}

/// How many columns of a terminal shown text takes: one a character, since Windows-1252 has no wide and no combining ones.
#[tactic(auto, unfolding(crate::specs::Text::shown_width, crate::specs::Text::widths_on))]
pub fn shown_width(text: &[u8]) -> usize
    ensures { result ≡ shown_width text.now }
{
    let mut width = 0usize;
    for b in text {
        let own = if code_point(*b).is_control() { 4 } else { 1 };
        width = width.saturating_add(own);
    }
    width
}

/// So many spaces.
#[derive(Clone, Copy)]
pub struct Spaces(pub usize);

impl fmt::Display for Spaces {
    ghost output = { λ n. Some (replicate n.0 32) };

    fn fmt<W: fmt::Write>(&self, f: &mut fmt::Formatter<W>) -> fmt::Result {
        for _i in 0..self.0 {
            write!(f, " ")?;
        }
        Ok(())
    }
}

//! `compare --json`: a line a finding.
ghost use Rattle.std.specs.Prelude.{[], ◌++◌, true, OnOk, Some, if◌then◌else◌};
ghost use Rattle.std.specs.Io.KnownBytes.{Appends};
ghost use Rattle.comparison.specs.Moved.{moved_in};
ghost use Rattle.pairing.specs.Rows.{is_alike, rows_in};
ghost use Rattle.comparison.specs.Entries.{together};
ghost use Rattle.comparison.specs.Json.{comma, difference_json, entry_line, front_text, json_lines, later_text, moved_line, name_text, parts_in, parts_json, row_lines, side_text, title_text};

use crate::entries::differences_in;
use crate::moved::{Moved, shift_behind};
use differences::Difference;
use pairing::pieces::{Piece, Shift};
use pairing::rows::{Row, Rows};
use refusal::Mode;
use report::json::RefusedEntry;
use sections::Part;
use std::alloc::Global;
use std::io::Write;
use std::{fmt, io};
use values::AsJson;
use wording::strings::Quoted;

/// Writes the lines.
pub(crate) fn write<W: Write>(alloc: Global, rows: &Rows<'_, '_>, out: &mut W) -> io::Result<()>
    ensures { OnOk result (Appends (W.contents out.old) (W.contents out.new) (json_lines rows.now.mode together (rows_in rows.now))) }
{
    let mut before = Shift::Later(0);
    for pair in rows.pairs {
        let row = rows.row(pair);
        write_row(alloc, &row, before, rows.mode, out)?;
        before = shift_behind(&row, before);
    }
    Ok(())
}

// The lines of a row, behind one whose entry stood so many bytes later in B.
#[tactic(auto, unfolding(crate::specs::Json::row_lines))]
fn write_row<W: Write>(
    alloc: Global,
    row: &Row<'_>,
    before: Shift,
    mode: Mode,
    out: &mut W,
) -> io::Result<()>
    ensures { OnOk result (Appends (W.contents out.old) (W.contents out.new) (row_lines mode before row.now)) }
{
    write_moved(row, before, out)?;
    write_told(alloc, row, mode, out)?;
    Ok(())
}

// The line of an entry, if it differs.
fn write_told<W: Write>(alloc: Global, row: &Row<'_>, mode: Mode, out: &mut W) -> io::Result<()>
    ensures { OnOk result (Appends (W.contents out.old) (W.contents out.new) (if is_alike row.now.a row.now.b then [] else entry_line mode row.now)) }
{
    if row.is_alike() {
        return Ok(());
    }
    write_entry(alloc, row, mode, out)
}

// Where the entry stands, if otherwise apart than the one before.
#[tactic(auto, unfolding(crate::specs::Json::moved_line))]
fn write_moved<W: Write>(row: &Row<'_>, before: Shift, out: &mut W) -> io::Result<()>
    ensures { OnOk result (Appends (W.contents out.old) (W.contents out.new) (moved_line (moved_in before row.now.a row.now.b))) }
{
    let Some(moved) = Moved::of(row, before) else {
        return Ok(());
    };
    let later = Later(moved.shift);
    let (in_a, in_b) = (moved.place_in_a, moved.place_in_b);
    writeln!(
        out,
        "{{\"later_in_b\":{later},\"a\":{{\"place\":{in_a}}},\"b\":{{\"place\":{in_b}}}}}"
    )
}

// As a number, negative where it is earlier.
#[derive(Clone, Copy)]
struct Later(Shift);

impl fmt::Display for Later {
    ghost output = { λ l. Some (later_text l.0) };

    fn fmt<W: fmt::Write>(&self, f: &mut fmt::Formatter<W>) -> fmt::Result {
        match self.0 {
            Shift::Later(bytes) => write!(f, "{bytes}"),
            Shift::Earlier(bytes) => write!(f, "-{bytes}"),
        }
    }
}

#[tactic(auto, unfolding(crate::specs::Json::entry_line))]
fn write_entry<W: Write>(alloc: Global, row: &Row<'_>, mode: Mode, out: &mut W) -> io::Result<()>
    ensures { OnOk result (Appends (W.contents out.old) (W.contents out.new) (entry_line mode row.now)) }
{
    write_front(row, out)?;
    write_parts(alloc, row, mode, out)?;
    writeln!(out, "]}}")
}

// The parts in which an entry differs that both have.
fn write_parts<W: Write>(alloc: Global, row: &Row<'_>, mode: Mode, out: &mut W) -> io::Result<()>
    ensures { OnOk result (Appends (W.contents out.old) (W.contents out.new) (parts_in mode row.now.a row.now.b)) }
{
    if let (Some(a), Some(b)) = (&row.a, &row.b) {
        let all = differences_in(alloc, a, b, mode)?;
        write_differences(all.as_slice(), out)?;
    }
    Ok(())
}

// What stands before the parts.
#[tactic(auto, unfolding(crate::specs::Json::front_text))]
fn write_front<W: Write>(row: &Row<'_>, out: &mut W) -> io::Result<()>
    ensures { OnOk result (Appends (W.contents out.old) (W.contents out.new) (front_text row.now)) }
{
    let name = NameOrNull(row.name());
    let a = Side(&row.a);
    let b = Side(&row.b);
    write!(out, "{{\"name\":{name},\"a\":{a},\"b\":{b},\"parts\":[")
}

// A name, if there is one.
#[derive(Clone, Copy)]
struct NameOrNull<'a>(Option<&'a [u8]>);

impl fmt::Display for NameOrNull<'_> {
    ghost output = { λ n. Some (name_text n.0) };

    fn fmt<W: fmt::Write>(&self, f: &mut fmt::Formatter<W>) -> fmt::Result {
        match self.0 {
            Some(name) => Quoted(name).fmt(f),
            None => write!(f, "null"),
        }
    }
}

// A part, or that an entry is refused.
#[derive(Clone, Copy)]
pub(crate) struct Title(pub Option<Part>);

impl fmt::Display for Title {
    ghost output = { λ t. Some (title_text t.0) };

    fn fmt<W: fmt::Write>(&self, f: &mut fmt::Formatter<W>) -> fmt::Result {
        match self.0 {
            Some(part) => part.fmt(f),
            None => write!(f, "refusal"),
        }
    }
}

#[derive(Clone, Copy)]
struct PartObject<'a>(&'a Difference<'a>);

impl fmt::Display for PartObject<'_> {
    ghost output = { λ p. Some (difference_json p.0.now) };

    #[tactic(auto, unfolding(crate::specs::Json::difference_json))]
    fn fmt<W: fmt::Write>(&self, f: &mut fmt::Formatter<W>) -> fmt::Result {
        let part = Title(self.0.part);
        let in_a = AsJson(self.0.in_a);
        let in_b = AsJson(self.0.in_b);
        write!(f, "{{\"part\":\"{part}\",\"a\":{in_a},\"b\":{in_b}}}")
    }
}

// A comma, but before the first.
#[derive(Clone, Copy)]
struct Comma {
    is_first: bool,
}

impl fmt::Display for Comma {
    ghost output = { λ c. Some (comma c.is_first) };

    fn fmt<W: fmt::Write>(&self, f: &mut fmt::Formatter<W>) -> fmt::Result {
        if self.is_first {
            return Ok(());
        }
        write!(f, ",")
    }
}

fn write_difference<W: Write>(is_first: bool, one: &Difference<'_>, out: &mut W) -> io::Result<()>
    ensures { OnOk result (Appends (W.contents out.old) (W.contents out.new) (comma is_first ++ difference_json one.now)) }
{
    let comma = Comma { is_first };
    let part = PartObject(one);
    write!(out, "{comma}{part}")
}

fn write_differences<W: Write>(all: &[Difference<'_>], out: &mut W) -> io::Result<()>
    ensures { OnOk result (Appends (W.contents out.old) (W.contents out.new) (parts_json true all.now)) }
{
    let mut is_first = true;
    for one in all {
        write_difference(is_first, one, out)?;
        is_first = false;
    }
    Ok(())
}

// What one upload has of an entry.
#[derive(Clone, Copy)]
struct Side<'a>(&'a Option<Piece<'a>>);

impl fmt::Display for Side<'_> {
    ghost output = { λ s. Some (side_text s.0.now) };

    fn fmt<W: fmt::Write>(&self, f: &mut fmt::Formatter<W>) -> fmt::Result {
        let Some(piece) = self.0 else {
            return write!(f, "null")
        };
        let place = piece.place;
        match &piece.name {
            Ok(_) => write!(f, "{{\"place\":{place}}}"),
            Err(why) => RefusedEntry { place, why }.fmt(f),
        }
    }
}

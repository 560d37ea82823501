//! `bind`: a table of addresses (docs/FORMAT.md, "The command's text").

ghost use Rattle.std.specs.Prelude.{◌≡◌, ◌≤◌, ◌++◌, OnOk, Some, codes, decimal, length};
ghost use Rattle.std.specs.List.{flat_map};
ghost use Rattle.std.specs.Io.KnownBytes.{Appends};
ghost use Rattle.report.specs.Cells.{hexadecimal};
ghost use Rattle.bind_report.specs.Table.{tells_bit, bit_text, unit_text, offset_text, size_text, entry_text, headings, widths_of, widest, fitted, headings_text, offset_cell, size_cell, numbers_text, address_text, part_text, refused_text, answer_by, line_text, columns_of, table_text};

use crate::json::{place_there, upload_word};
use crate::{Bound, Reason, refused_part};
use bind::Address;
use bind::reading::Place;
use refusal::Refusal;
use report::cells::{AtLeft, AtRight, Hexadecimal, Name, digits};
use std::io::Write;
use std::{fmt, io};
use wording::strings::{Shown, Spaces, shown_width};

// How wide the columns of a table are, in characters: as the widest of their headings and of the cells that are to stand in them.
#[derive(Clone, Copy, Debug)]
struct Columns {
    path: usize,
    group: usize,
    offset: usize,
    size: usize,
    type_name: usize,
}

// Whether an address tells a bit: the offset then has it behind a dot.
fn tells_bit(address: &Address<'_>) -> bool
    ensures { result ≡ tells_bit address.now }
{
    address.size_in_bits || 0 < address.bit
}

// How many characters a number has in hexadecimal digits, with `0x`.
fn hexadecimal_width(number: u32) -> usize
    ensures value { result ≡ length (hexadecimal number) }
    ensures most { result ≤ 66 }
{
    digits(number as usize, 16) + 2
}

// The same of a bit, with its dot, where one is told.
fn bit_width(address: &Address<'_>) -> usize
    ensures value { result ≡ length (bit_text address.now) }
    ensures most { result ≤ 65 }
{
    if tells_bit(address) {
        digits(usize::from(address.bit), 10) + 1
    } else {
        0
    }
}

#[tactic(auto, using(crate::proofs::Widths::offset_wide))]
fn offset_width(address: &Address<'_>) -> usize
    ensures { result ≡ length (offset_text address.now) }
{
    hexadecimal_width(address.offset.0) + bit_width(address)
}

fn unit(address: &Address<'_>) -> &'static str
    ensures value { result.now ≡ unit_text address.now }
    ensures most { length result.now ≤ 5 }
{
    match (address.size_in_bits, address.size) {
        (false, _) => "",
        (true, 1) => " bit",
        (true, _) => " bits",
    }
}

fn size_digits(address: &Address<'_>) -> usize
    ensures value { result ≡ length (decimal address.now.size) }
    ensures most { result ≤ 64 }
{
    digits(address.size as usize, 10)
}

#[tactic(auto, using(crate::proofs::Widths::size_wide))]
fn size_width(address: &Address<'_>) -> usize
    ensures { result ≡ length (size_text address.now) }
{
    size_digits(address) + unit(address).len()
}

impl Columns {
    // For the headings alone.
    fn new() -> Self
        ensures { result ≡ headings }
    {
        Columns {
            path: 4,
            group: 5,
            offset: 6,
            size: 4,
            type_name: 4,
        }
    }

    // For the cells of an address alone.
    #[tactic(auto, unfolding(crate::specs::Table::widths_of))]
    fn of(path: &[u8], address: &Address<'_>) -> Self
        ensures { result ≡ widths_of path.entry address.now }
    {
        Columns {
            path: shown_width(path),
            group: hexadecimal_width(address.group.0),
            offset: offset_width(address),
            size: size_width(address),
            type_name: shown_width(address.type_name),
        }
    }

    // Wide enough for both.
    #[tactic(auto, unfolding(crate::specs::Table::widest))]
    fn widest(self, other: Columns) -> Self
        ensures { result ≡ widest self other }
    {
        Columns {
            path: self.path.max(other.path),
            group: self.group.max(other.group),
            offset: self.offset.max(other.offset),
            size: self.size.max(other.size),
            type_name: self.type_name.max(other.type_name),
        }
    }

    // Wide enough for one more line.
    #[tactic(auto, unfolding(crate::specs::Table::fitted))]
    fn fit(&mut self, bound: &Bound<'_>)
        ensures { self.new ≡ fitted self.old bound.now }
    {
        match &bound.answer {
            Ok(address) => *self = self.widest(Columns::of(bound.path, address)),
            Err(_) => self.path = self.path.max(shown_width(bound.path)),
        }
    }

    // The line of headings. Numbers stand at the right of their columns.
    fn write_headings<W: Write>(&self, out: &mut W) -> io::Result<()>
        ensures { OnOk result (Appends (W.contents out.old) (W.contents out.new) (headings_text self.now ++ codes "\n")) }
    {
        let headings = Headings(*self);
        writeln!(out, "{headings}")
    }

    // The line of a path: its address, or why it has none.
    #[tactic(auto, unfolding(crate::specs::Table::line_text))]
    fn write_line<W: Write>(&self, bound: &Bound<'_>, out: &mut W) -> io::Result<()>
        ensures { OnOk result (Appends (W.contents out.old) (W.contents out.new) (line_text self.now bound.now)) }
    {
        let path = Name {
            name: bound.path,
            column: self.path,
        };
        let answer = Answer {
            columns: *self,
            bound,
        };
        writeln!(out, "{path}  {answer}")
    }

    fn write_lines<W: Write>(&self, bounds: &[Bound<'_>], out: &mut W) -> io::Result<()>
        ensures { OnOk result (Appends (W.contents out.old) (W.contents out.new) (flat_map (line_text self.now) bounds.now)) }
    {
        for bound in bounds {
            self.write_line(bound, out)?;
        }
        Ok(())
    }
}

// As wide as some paths need them.
#[tactic(auto, unfolding(crate::specs::Table::fitted_on))]
fn columns_of(bounds: &[Bound<'_>]) -> Columns
    ensures { result ≡ columns_of bounds.now }
{
    let mut columns = Columns::new();
    for bound in bounds {
        columns.fit(bound);
    }
    columns
}

/// Writes the table of some paths: the headings, and a line for each, in their order, in columns that are as wide as all of them need.
pub fn write<W: Write>(bounds: &[Bound<'_>], out: &mut W) -> io::Result<()>
    ensures { OnOk result (Appends (W.contents out.old) (W.contents out.new) (table_text bounds.now)) }
{
    let columns = columns_of(bounds);
    columns.write_headings(out)?;
    columns.write_lines(bounds, out)
}

#[derive(Clone, Copy)]
struct Headings(Columns);

impl fmt::Display for Headings {
    ghost output = { λ h. Some (headings_text h.0) };

    #[tactic(auto, unfolding(crate::specs::Table::headings_text))]
    fn fmt<W: fmt::Write>(&self, f: &mut fmt::Formatter<W>) -> fmt::Result {
        let columns = self.0;
        let path = AtLeft("path", columns.path);
        let group = AtRight("group", columns.group);
        let offset = AtRight("offset", columns.offset);
        write!(f, "{path}  {group}  {offset}")?;
        let size = AtRight("size", columns.size);
        let type_name = AtLeft("type", columns.type_name);
        write!(f, "  {size}  {type_name}  entry")
    }
}

// The offset at the right of its column, and a bit behind it.
#[derive(Clone, Copy)]
struct Offset<'a> {
    address: &'a Address<'a>,
    column: usize,
}

impl fmt::Display for Offset<'_> {
    ghost output = { λ o. Some (offset_cell o.column o.address.now) };

    #[tactic(auto, unfolding(crate::specs::Table::offset_cell, crate::specs::Table::offset_text))]
    fn fmt<W: fmt::Write>(&self, f: &mut fmt::Formatter<W>) -> fmt::Result {
        let gap = Spaces(self.column.saturating_sub(offset_width(self.address)));
        let offset = self.address.offset.0;
        write!(f, "{gap}0x{offset:X}")?;
        if tells_bit(self.address) {
            let bit = self.address.bit;
            return write!(f, ".{bit}");
        }
        Ok(())
    }
}

// The size at the right of its column, with its unit if it is in bits.
#[derive(Clone, Copy)]
struct Size<'a> {
    address: &'a Address<'a>,
    column: usize,
}

impl fmt::Display for Size<'_> {
    ghost output = { λ s. Some (size_cell s.column s.address.now) };

    #[tactic(auto, unfolding(crate::specs::Table::size_cell, crate::specs::Table::size_text))]
    fn fmt<W: fmt::Write>(&self, f: &mut fmt::Formatter<W>) -> fmt::Result {
        let gap = Spaces(self.column.saturating_sub(size_width(self.address)));
        let size = self.address.size;
        let unit = unit(self.address);
        write!(f, "{gap}{size}{unit}")
    }
}

#[derive(Clone, Copy)]
struct NumberCells<'a> {
    columns: Columns,
    address: &'a Address<'a>,
}

impl fmt::Display for NumberCells<'_> {
    ghost output = { λ c. Some (numbers_text c.columns c.address.now) };

    #[tactic(auto, unfolding(crate::specs::Table::numbers_text))]
    fn fmt<W: fmt::Write>(&self, f: &mut fmt::Formatter<W>) -> fmt::Result {
        let (columns, address) = (self.columns, self.address);
        let group = Hexadecimal {
            number: address.group.0,
            column: columns.group,
        };
        let offset = Offset {
            address,
            column: columns.offset,
        };
        let size = Size {
            address,
            column: columns.size,
        };
        write!(f, "{group}  {offset}  {size}")
    }
}

// The upload that an entry stands in, and where.
#[derive(Clone, Copy)]
struct Entry(Place);

impl fmt::Display for Entry {
    ghost output = { λ e. Some (entry_text e.0) };

    #[tactic(auto, unfolding(crate::specs::Table::entry_text))]
    fn fmt<W: fmt::Write>(&self, f: &mut fmt::Formatter<W>) -> fmt::Result {
        let upload = upload_word(self.0);
        let place = place_there(self.0);
        write!(f, "{upload} {place}")
    }
}

// All cells of an address.
#[derive(Clone, Copy)]
struct AddressCells<'a>(NumberCells<'a>);

impl fmt::Display for AddressCells<'_> {
    ghost output = { λ c. Some (address_text c.0.columns c.0.address.now) };

    #[tactic(auto, unfolding(crate::specs::Table::address_text))]
    fn fmt<W: fmt::Write>(&self, f: &mut fmt::Formatter<W>) -> fmt::Result {
        let numbers = self.0;
        let type_name = Name {
            name: numbers.address.type_name,
            column: numbers.columns.type_name,
        };
        let entry = Entry(numbers.address.place);
        write!(f, "{numbers}  {type_name}  {entry}")
    }
}

// A part of a path behind a colon, if it has a byte.
#[derive(Clone, Copy)]
struct PartBehind<'a>(Option<&'a [u8]>);

impl fmt::Display for PartBehind<'_> {
    ghost output = { λ p. Some (part_text p.0) };

    fn fmt<W: fmt::Write>(&self, f: &mut fmt::Formatter<W>) -> fmt::Result {
        let Some(part) = self.0 else {
            return Ok(());
        };
        if part.is_empty() {
            return Ok(());
        }
        let part = Shown(part);
        write!(f, ": {part}")
    }
}

// Why there is no address.
#[derive(Clone, Copy)]
struct Refused<'a> {
    path: &'a [u8],
    why: &'a Refusal,
}

impl fmt::Display for Refused<'_> {
    ghost output = { λ r. Some (refused_text r.path r.why.now) };

    #[tactic(auto, unfolding(crate::specs::Table::refused_text))]
    fn fmt<W: fmt::Write>(&self, f: &mut fmt::Formatter<W>) -> fmt::Result {
        let reason = Reason(self.why);
        let part = PartBehind(refused_part(self.path, self.why));
        write!(f, "{reason}{part}")
    }
}

// What stands behind the path.
#[derive(Clone, Copy)]
struct Answer<'a> {
    columns: Columns,
    bound: &'a Bound<'a>,
}

impl fmt::Display for Answer<'_> {
    ghost output = { λ a. Some (answer_by a.columns a.bound.now.path a.bound.now.answer) };

    fn fmt<W: fmt::Write>(&self, f: &mut fmt::Formatter<W>) -> fmt::Result {
        let columns = self.columns;
        match &self.bound.answer {
            Ok(address) => AddressCells(NumberCells { columns, address }).fmt(f),
            Err(why) => {
                let path = self.bound.path;
                Refused { path, why }.fmt(f)
            }
        }
    }
}

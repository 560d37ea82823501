//! `list`: a table of the entries (docs/FORMAT.md, "The command's text").
ghost use Rattle.std.specs.Prelude.{◌≡◌, ◌++◌, OnOk, IfOk, Some, codes};
ghost use Rattle.std.specs.List.{flat_map};
ghost use Rattle.std.specs.Io.KnownBytes.{Appends};
ghost use Rattle.symbol.specs.Symbol.{symbol_of};
ghost use Rattle.walk.specs.Pieces.{pieces};
ghost use Rattle.report.specs.Report.{tally_of, upload_text};
ghost use Rattle.report.specs.Table.{headings, widths_of, widest, fitted, columns_of, headings_text, names_text, numbers_text, counts_text, symbol_row, line_text, table_text};

pub use crate::cells::digits;
use crate::cells::{AtLeft, AtRight, Hexadecimal, Name, Number, RefusedRow};
use crate::{Tally, Upload};
use std::io::Write;
use std::{fmt, io};
use symbol::{AdsSymbolInfo, Symbols};
use walk::Piece;
use wording::strings::shown_width;

/// How wide the columns of a table are: as the widest of their headings and of the cells that are to stand in them.
#[derive(Clone, Copy)]
pub struct Columns {
    place: usize,
    name: usize,
    type_name: usize,
    size: usize,
    group: usize,
    offset: usize,
    attributes: usize,
    unread: usize,
    high: usize,
}

impl Columns {
    /// For the headings alone.
    pub fn new() -> Self
        ensures { result ≡ headings }
    {
        Columns {
            place: 5,
            name: 4,
            type_name: 4,
            size: 4,
            group: 5,
            offset: 6,
            attributes: 5,
            unread: 6,
            high: 4,
        }
    }

    // For the cells of a symbol alone.
    #[tactic(auto, unfolding(crate::specs::Table::widths_of))]
    fn of(place: usize, symbol: &AdsSymbolInfo<'_>) -> Self
        ensures { result ≡ widths_of place symbol.now }
    {
        Columns {
            place: digits(place, 10),
            name: shown_width(symbol.name),
            type_name: shown_width(symbol.type_name),
            size: digits(symbol.size as usize, 10),
            group: digits(symbol.index_group.0 as usize, 16) + 2,
            offset: digits(symbol.index_offset.0 as usize, 16) + 2,
            attributes: digits(symbol.attributes.count, 10),
            unread: digits(symbol.unread.len(), 10),
            high: digits(usize::from(symbol.high), 10),
        }
    }

    // Wide enough for both.
    #[tactic(auto, unfolding(crate::specs::Table::widest))]
    fn widest(self, other: Columns) -> Self
        ensures { result ≡ widest self other }
    {
        Columns {
            place: self.place.max(other.place),
            name: self.name.max(other.name),
            type_name: self.type_name.max(other.type_name),
            size: self.size.max(other.size),
            group: self.group.max(other.group),
            offset: self.offset.max(other.offset),
            attributes: self.attributes.max(other.attributes),
            unread: self.unread.max(other.unread),
            high: self.high.max(other.high),
        }
    }

    /// Wide enough for one more line.
    #[tactic(auto, unfolding(crate::specs::Table::fitted))]
    pub fn fit(&mut self, piece: &Piece<AdsSymbolInfo<'_>>)
        ensures { self.new ≡ fitted self.old piece.now }
    {
        match &piece.answer {
            Ok(symbol) => *self = self.widest(Columns::of(piece.start, symbol)),
            Err(_) => self.place = self.place.max(digits(piece.start, 10)),
        }
    }

    /// Writes the line of headings. Numbers stand at the right of their columns.
    pub fn write_headings<W: Write>(&self, out: &mut W) -> io::Result<()>
        ensures { OnOk result (Appends (W.contents out.old) (W.contents out.new) (headings_text self.now ++ codes "\n")) }
    {
        let headings = Headings(*self);
        writeln!(out, "{headings}")
    }

    /// Writes the line of an entry: its cells, or why it was refused.
    #[tactic(auto, unfolding(crate::specs::Table::line_text))]
    pub fn write_line<W: Write>(
        &self,
        piece: &Piece<AdsSymbolInfo<'_>>,
        out: &mut W,
    ) -> io::Result<()>
        ensures { OnOk result (Appends (W.contents out.old) (W.contents out.new) (line_text self.now piece.now)) }
    {
        let columns = *self;
        let place = piece.start;
        match &piece.answer {
            Ok(symbol) => {
                let row = SymbolRow {
                    columns,
                    place,
                    symbol,
                };
                writeln!(out, "{row}")
            }
            Err(why) => {
                let column = self.place;
                let row = RefusedRow { column, place, why };
                writeln!(out, "{row}")
            }
        }
    }
}

#[derive(Clone, Copy)]
struct Headings(Columns);

impl fmt::Display for Headings {
    ghost output = { λ h. Some (headings_text h.0) };

    #[tactic(auto, unfolding(crate::specs::Table::headings_text))]
    fn fmt<W: fmt::Write>(&self, f: &mut fmt::Formatter<W>) -> fmt::Result {
        let columns = self.0;
        let place = AtRight("place", columns.place);
        let name = AtLeft("name", columns.name);
        let type_name = AtLeft("type", columns.type_name);
        let size = AtRight("size", columns.size);
        let group = AtRight("group", columns.group);
        let offset = AtRight("offset", columns.offset);
        let attributes = AtRight("attrs", columns.attributes);
        let unread = AtRight("unread", columns.unread);
        let high = AtRight("high", columns.high);
        write!(
            f,
            "{place}  {name}  {type_name}  {size}  {group}  {offset}  {attributes}  {unread}  {high}"
        )
    }
}

// The cells of a symbol.
#[derive(Clone, Copy)]
struct SymbolRow<'a> {
    columns: Columns,
    place: usize,
    symbol: &'a AdsSymbolInfo<'a>,
}

impl fmt::Display for SymbolRow<'_> {
    ghost output = { λ r. Some (symbol_row r.columns r.place r.symbol.now) };

    #[tactic(auto, unfolding(crate::specs::Table::symbol_row))]
    fn fmt<W: fmt::Write>(&self, f: &mut fmt::Formatter<W>) -> fmt::Result {
        let names = NameCells(*self);
        let numbers = NumberCells(*self);
        let counts = CountCells(*self);
        write!(f, "{names}  {numbers}  {counts}")
    }
}

#[derive(Clone, Copy)]
struct NameCells<'a>(SymbolRow<'a>);

impl fmt::Display for NameCells<'_> {
    ghost output = { λ c. Some (names_text c.0.columns c.0.place c.0.symbol.now) };

    #[tactic(auto, unfolding(crate::specs::Table::names_text))]
    fn fmt<W: fmt::Write>(&self, f: &mut fmt::Formatter<W>) -> fmt::Result {
        let (columns, symbol) = (self.0.columns, self.0.symbol);
        let place = Number {
            number: self.0.place,
            column: columns.place,
        };
        let name = Name {
            name: symbol.name,
            column: columns.name,
        };
        let type_name = Name {
            name: symbol.type_name,
            column: columns.type_name,
        };
        write!(f, "{place}  {name}  {type_name}")
    }
}

#[derive(Clone, Copy)]
struct NumberCells<'a>(SymbolRow<'a>);

impl fmt::Display for NumberCells<'_> {
    ghost output = { λ c. Some (numbers_text c.0.columns c.0.symbol.now) };

    #[tactic(auto, unfolding(crate::specs::Table::numbers_text))]
    fn fmt<W: fmt::Write>(&self, f: &mut fmt::Formatter<W>) -> fmt::Result {
        let (columns, symbol) = (self.0.columns, self.0.symbol);
        let size = Number {
            number: symbol.size as usize,
            column: columns.size,
        };
        let group = Hexadecimal {
            number: symbol.index_group.0,
            column: columns.group,
        };
        let offset = Hexadecimal {
            number: symbol.index_offset.0,
            column: columns.offset,
        };
        write!(f, "{size}  {group}  {offset}")
    }
}

#[derive(Clone, Copy)]
struct CountCells<'a>(SymbolRow<'a>);

impl fmt::Display for CountCells<'_> {
    ghost output = { λ c. Some (counts_text c.0.columns c.0.symbol.now) };

    #[tactic(auto, unfolding(crate::specs::Table::counts_text))]
    fn fmt<W: fmt::Write>(&self, f: &mut fmt::Formatter<W>) -> fmt::Result {
        let (columns, symbol) = (self.0.columns, self.0.symbol);
        let attributes = Number {
            number: symbol.attributes.count,
            column: columns.attributes,
        };
        let unread = Number {
            number: symbol.unread.len(),
            column: columns.unread,
        };
        let high = Number {
            number: usize::from(symbol.high),
            column: columns.high,
        };
        write!(f, "{attributes}  {unread}  {high}")
    }
}

// As wide as the entries of an upload need them.
fn columns_of(upload: &Upload<'_>) -> Columns
    ensures { result ≡ columns_of (pieces (symbol_of upload.now.mode) upload.now.bytes) }
{
    let mut columns = Columns::new();
    for piece in Symbols::new(upload.bytes, upload.mode) {
        columns.fit(&piece);
    }
    columns
}

// What the upload is, and the headings.
fn write_head<W: Write>(upload: &Upload<'_>, columns: Columns, out: &mut W) -> io::Result<()>
    ensures { OnOk result (Appends (W.contents out.old) (W.contents out.new) (upload_text upload.now ++ (codes "\n" ++ (headings_text columns ++ codes "\n")))) }
{
    let headings = Headings(columns);
    write!(out, "{upload}\n{headings}\n")
}

fn write_lines<W: Write>(upload: &Upload<'_>, columns: Columns, out: &mut W) -> io::Result<Tally>
    ensures text { OnOk result (Appends (W.contents out.old) (W.contents out.new) (flat_map (line_text columns) (pieces (symbol_of upload.now.mode) upload.now.bytes))) }
    ensures tally { IfOk result (λ tally. tally ≡ tally_of (pieces (symbol_of upload.now.mode) upload.now.bytes)) }
{
    let mut tally = Tally::new();
    for piece in Symbols::new(upload.bytes, upload.mode) {
        tally.count(&piece.answer);
        columns.write_line(&piece, out)?;
    }
    Ok(tally)
}

/// Writes a table with a line for each entry; how many there are, and how many were refused. Refused entries stand in their place,
/// so a table that has one is still whole.
pub fn list<W: Write>(upload: &Upload<'_>, out: &mut W) -> io::Result<Tally>
    ensures text { OnOk result (Appends (W.contents out.old) (W.contents out.new) (table_text upload.now)) }
    ensures tally { IfOk result (λ tally. tally ≡ tally_of (pieces (symbol_of upload.now.mode) upload.now.bytes)) }
{
    let columns = columns_of(upload);
    write_head(upload, columns, out)?;
    let tally = write_lines(upload, columns, out)?;
    Ok(tally)
}

//! `type`: a table of data types, their members below them (docs/FORMAT.md, "The command's text").

ghost use Rattle.std.specs.Prelude.{◌≡◌, ◌++◌, OnOk, IfOk, Some, codes};
ghost use Rattle.std.specs.List.{flat_map};
ghost use Rattle.std.specs.Io.KnownBytes.{Appends};
ghost use Rattle.data_type.specs.DataType.{type_of};
ghost use Rattle.walk.specs.Pieces.{pieces};
ghost use Rattle.report.specs.Cells.{refused_row};
ghost use Rattle.type_tree.specs.Counts.{counts_of};
ghost use Rattle.type_table.specs.Table.{rows_of, headings, widths_of, widest, fitted, fitted_on, columns_of, headings_text, names_text, numbers_text, tail_text, row_text, row_line, piece_lines, head_text, type_table, table_text};

use crate::cells::{ArrayCell, AttributeCell, IN_CELLS, arrays_width, marks_width};
use data_type::{AdsDataTypeInfo, DataTypes};
use refusal::{DEEPEST, Mode, Refusal};
use report::Upload;
use report::cells::{AtLeft, AtRight, Name, Number, RefusedRow, digits};
use std::io::Write;
use std::{fmt, io};
use type_tree::Counts;
use type_tree::marks::Marked;
use type_tree::node::Node;
use walk::Piece;
use wording::strings::{Spaces, shown_width};

// By how many characters a member's name stands to the right of its parent's.
const STEP: usize = 2;

// How wide the columns are but the last: as the widest of their headings and of the cells that are to stand in them.
#[derive(Clone, Copy)]
struct Columns {
    place: usize,
    name: usize,
    type_name: usize,
    offset: usize,
    from_start: usize,
    size: usize,
    marks: usize,
    arrays: usize,
}

impl Columns {
    // For the headings alone.
    fn new() -> Self
        ensures { result ≡ headings }
    {
        Columns {
            place: 5,
            name: 4,
            type_name: 4,
            offset: 6,
            from_start: 10,
            size: 4,
            marks: 4,
            arrays: 5,
        }
    }

    // For the cells of a row alone.
    #[tactic(auto, unfolding(crate::specs::Table::widths_of))]
    fn of(row: Row<'_>) -> Self
        ensures { result ≡ widths_of row.entry.indent row.entry.node.now }
    {
        let node = row.node;
        let field = &node.info.field;
        Columns {
            place: digits(node.place, 10),
            name: row.indent.saturating_add(shown_width(field.name)),
            type_name: shown_width(field.type_name),
            offset: digits(field.offset as usize, 10),
            from_start: digits(node.offset_from_start as usize, 10),
            size: digits(field.size as usize, 10),
            marks: marks_width(node.marks),
            arrays: arrays_width(node.info.arrays),
        }
    }

    // Wide enough for both.
    #[tactic(auto, unfolding(crate::specs::Table::widest))]
    fn widest(self, other: Columns) -> Self
        ensures { result ≡ widest self other }
    {
        Columns {
            place: self.place.max(other.place),
            name: self.name.max(other.name),
            type_name: self.type_name.max(other.type_name),
            offset: self.offset.max(other.offset),
            from_start: self.from_start.max(other.from_start),
            size: self.size.max(other.size),
            marks: self.marks.max(other.marks),
            arrays: self.arrays.max(other.arrays),
        }
    }

    // Wide enough for a data type and its members too, so many levels in all.
    fn fit_node(&mut self, row: Row<'_>, mode: Mode, levels: usize)
        ensures { self.new ≡ fitted_on self.old (rows_of mode levels row.entry.indent row.entry.node.now) }
    {
        if levels == 0 {
            return;
        }
        *self = self.widest(Columns::of(row));
        let indent = row.indent.saturating_add(STEP);
        let node = row.node;
        for member in node.members(mode) {
            let row = Row {
                indent,
                node: &member,
            };
            self.fit_node(row, mode, levels - 1);
        }
    }

    // Wide enough for one more entry of an upload.
    #[tactic(auto, unfolding(crate::specs::Table::fitted))]
    fn fit(&mut self, piece: &Piece<AdsDataTypeInfo<'_>>, mode: Mode)
        ensures { self.new ≡ fitted mode self.old piece.now }
    {
        match &piece.answer {
            Ok(info) => {
                let node = Node::root(piece.start, *info);
                let row = Row {
                    indent: 0,
                    node: &node,
                };
                self.fit_node(row, mode, DEEPEST);
            }
            Err(_) => self.place = self.place.max(digits(piece.start, 10)),
        }
    }
}

// As wide as the entries of an upload need them.
fn columns_of(upload: &Upload<'_>) -> Columns
    ensures { result ≡ columns_of upload.now.mode (pieces (type_of upload.now.mode) upload.now.bytes) }
{
    let mut columns = Columns::new();
    for piece in DataTypes::new(upload.bytes, upload.mode) {
        columns.fit(&piece, upload.mode);
    }
    columns
}

#[derive(Clone, Copy)]
struct Headings(Columns);

impl fmt::Display for Headings {
    ghost output = { λ h. Some (headings_text h.0) };

    #[tactic(auto, unfolding(crate::specs::Table::headings_text))]
    fn fmt<W: fmt::Write>(&self, f: &mut fmt::Formatter<W>) -> fmt::Result {
        let columns = self.0;
        let place = AtRight("place", columns.place);
        let name = AtLeft("name", columns.name);
        let type_name = AtLeft("type", columns.type_name);
        let offset = AtRight("offset", columns.offset);
        let from_start = AtRight("from start", columns.from_start);
        let size = AtRight("size", columns.size);
        write!(
            f,
            "{place}  {name}  {type_name}  {offset}  {from_start}  {size}"
        )?;
        let marks = AtLeft("mark", columns.marks);
        let arrays = AtLeft("array", columns.arrays);
        write!(f, "  {marks}  {arrays}  attributes")
    }
}

// A data type or a member, and by how many characters its name stands to the right.
#[derive(Clone, Copy)]
struct Row<'a> {
    indent: usize,
    node: &'a Node<'a>,
}

// The cells of a row in their columns.
#[derive(Clone, Copy)]
struct Cells<'a> {
    columns: Columns,
    row: Row<'a>,
}

impl fmt::Display for Cells<'_> {
    ghost output = { λ c. Some (row_text c.columns c.row.indent c.row.node.now) };

    #[tactic(auto, unfolding(crate::specs::Table::row_text))]
    fn fmt<W: fmt::Write>(&self, f: &mut fmt::Formatter<W>) -> fmt::Result {
        let names = NameCells(*self);
        let numbers = NumberCells(*self);
        let tail = Tail(*self);
        write!(f, "{names}  {numbers}{tail}")
    }
}

#[derive(Clone, Copy)]
struct NameCells<'a>(Cells<'a>);

impl fmt::Display for NameCells<'_> {
    ghost output = { λ c. Some (names_text c.0.columns c.0.row.indent c.0.row.node.now) };

    #[tactic(auto, unfolding(crate::specs::Table::names_text))]
    fn fmt<W: fmt::Write>(&self, f: &mut fmt::Formatter<W>) -> fmt::Result {
        let (columns, node) = (self.0.columns, self.0.row.node);
        let right = self.0.row.indent;
        let place = Number {
            number: node.place,
            column: columns.place,
        };
        let indent = Spaces(right);
        let name = Name {
            name: node.info.field.name,
            column: columns.name.saturating_sub(right),
        };
        let type_name = Name {
            name: node.info.field.type_name,
            column: columns.type_name,
        };
        write!(f, "{place}  {indent}{name}  {type_name}")
    }
}

#[derive(Clone, Copy)]
struct NumberCells<'a>(Cells<'a>);

impl fmt::Display for NumberCells<'_> {
    ghost output = { λ c. Some (numbers_text c.0.columns c.0.row.node.now) };

    #[tactic(auto, unfolding(crate::specs::Table::numbers_text))]
    fn fmt<W: fmt::Write>(&self, f: &mut fmt::Formatter<W>) -> fmt::Result {
        let (columns, node) = (self.0.columns, self.0.row.node);
        let offset = Number {
            number: node.info.field.offset as usize,
            column: columns.offset,
        };
        let from_start = Number {
            number: node.offset_from_start as usize,
            column: columns.from_start,
        };
        let size = Number {
            number: node.info.field.size as usize,
            column: columns.size,
        };
        write!(f, "{offset}  {from_start}  {size}")
    }
}

// The cells of text at the end of a row. What is empty at its end is left out, so that no line ends in spaces of its own.
#[derive(Clone, Copy)]
struct Tail<'a>(Cells<'a>);

impl fmt::Display for Tail<'_> {
    ghost output = { λ t. Some (tail_text t.0.columns t.0.row.node.now) };

    #[tactic(auto, unfolding(crate::specs::Table::tail_text))]
    fn fmt<W: fmt::Write>(&self, f: &mut fmt::Formatter<W>) -> fmt::Result {
        let (columns, node) = (self.0.columns, self.0.row.node);
        let marks = Marked {
            marks: node.marks,
            style: IN_CELLS,
        };
        let arrays = ArrayCell(node.info.arrays);
        let attributes = AttributeCell(node.info.field.attributes);
        let marks_wide = marks_width(node.marks);
        let arrays_wide = arrays_width(node.info.arrays);
        let marks_gap = Spaces(columns.marks.saturating_sub(marks_wide));
        let arrays_gap = Spaces(columns.arrays.saturating_sub(arrays_wide));
        if !attributes.is_empty() {
            return write!(
                f,
                "  {marks}{marks_gap}  {arrays}{arrays_gap}  {attributes}"
            );
        }
        if arrays_wide > 0 {
            return write!(f, "  {marks}{marks_gap}  {arrays}");
        }
        if marks_wide > 0 {
            return write!(f, "  {marks}");
        }
        Ok(())
    }
}

fn write_row<W: Write>(columns: Columns, row: Row<'_>, out: &mut W) -> io::Result<()>
    ensures { OnOk result (Appends (W.contents out.old) (W.contents out.new) (row_text columns row.entry.indent row.entry.node.now ++ codes "\n")) }
{
    let cells = Cells { columns, row };
    writeln!(out, "{cells}")
}

// The rows of a data type and of its members, so many levels in all.
fn write_node<W: Write>(
    columns: Columns,
    row: Row<'_>,
    mode: Mode,
    levels: usize,
    out: &mut W,
) -> io::Result<()>
    ensures { OnOk result (Appends (W.contents out.old) (W.contents out.new) (flat_map (row_line columns) (rows_of mode levels row.entry.indent row.entry.node.now))) }
{
    if levels == 0 {
        return Ok(());
    }
    write_row(columns, row, out)?;
    let indent = row.indent.saturating_add(STEP);
    let node = row.node;
    for member in node.members(mode) {
        let row = Row {
            indent,
            node: &member,
        };
        write_node(columns, row, mode, levels - 1, out)?;
    }
    Ok(())
}

fn write_refused<W: Write>(
    columns: Columns,
    place: usize,
    why: &Refusal,
    out: &mut W,
) -> io::Result<()>
    ensures { OnOk result (Appends (W.contents out.old) (W.contents out.new) (refused_row columns.place place why.now ++ codes "\n")) }
{
    let row = RefusedRow {
        column: columns.place,
        place,
        why,
    };
    writeln!(out, "{row}")
}

// The rows of an entry, or why it was refused.
#[tactic(auto, unfolding(crate::specs::Table::piece_lines))]
fn write_piece<W: Write>(
    columns: Columns,
    piece: &Piece<AdsDataTypeInfo<'_>>,
    mode: Mode,
    out: &mut W,
) -> io::Result<()>
    ensures { OnOk result (Appends (W.contents out.old) (W.contents out.new) (piece_lines mode columns piece.now)) }
{
    match &piece.answer {
        Ok(info) => {
            let node = Node::root(piece.start, *info);
            let row = Row {
                indent: 0,
                node: &node,
            };
            write_node(columns, row, mode, DEEPEST, out)
        }
        Err(why) => write_refused(columns, piece.start, why, out),
    }
}

// What the upload is, and the headings.
#[tactic(auto, unfolding(crate::specs::Table::head_text))]
fn write_head<W: Write>(upload: &Upload<'_>, columns: Columns, out: &mut W) -> io::Result<()>
    ensures { OnOk result (Appends (W.contents out.old) (W.contents out.new) (head_text upload.now columns)) }
{
    let headings = Headings(columns);
    write!(out, "{upload}\n{headings}\n")
}

/// Writes a table with a row for each data type and each of their members; how many entries the upload has, and how many were
/// refused. Refused ones stand in their place.
pub fn list<W: Write>(upload: &Upload<'_>, out: &mut W) -> io::Result<Counts>
    ensures text { OnOk result (Appends (W.contents out.old) (W.contents out.new) (table_text upload.now)) }
    ensures counts { IfOk result (λ counts. counts ≡ counts_of (pieces (type_of upload.now.mode) upload.now.bytes)) }
{
    let columns = columns_of(upload);
    write_head(upload, columns, out)?;
    let counts = write_lines(upload, columns, out)?;
    Ok(counts)
}

fn write_lines<W: Write>(upload: &Upload<'_>, columns: Columns, out: &mut W) -> io::Result<Counts>
    ensures text { OnOk result (Appends (W.contents out.old) (W.contents out.new) (flat_map (piece_lines upload.now.mode columns) (pieces (type_of upload.now.mode) upload.now.bytes))) }
    ensures counts { IfOk result (λ counts. counts ≡ counts_of (pieces (type_of upload.now.mode) upload.now.bytes)) }
{
    let mut counts = Counts::new();
    for piece in DataTypes::new(upload.bytes, upload.mode) {
        counts.count(&piece.answer);
        write_piece(columns, &piece, upload.mode, out)?;
    }
    Ok(counts)
}

/// Writes a table of one data type of an upload.
pub fn write_type<W: Write>(upload: &Upload<'_>, root: &Node<'_>, out: &mut W) -> io::Result<()>
    ensures { OnOk result (Appends (W.contents out.old) (W.contents out.new) (type_table upload.now root.now)) }
{
    let row = Row {
        indent: 0,
        node: root,
    };
    let mut columns = Columns::new();
    columns.fit_node(row, upload.mode, DEEPEST);
    write_head(upload, columns, out)?;
    write_node(columns, row, upload.mode, DEEPEST, out)?;
    Ok(())
}

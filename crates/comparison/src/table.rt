//! `compare`: a line for each part that differs, for each entry that one upload has alone, and where entries moved.
ghost use Rattle.std.specs.Prelude.{◌≡◌, ◌++◌, IfOk, None, OnOk, Some, length};
ghost use Rattle.std.specs.List.{flat_map};
ghost use Rattle.std.specs.Io.KnownBytes.{Appends};
ghost use Rattle.report.specs.Cells.{at_left};
ghost use Rattle.pairing.specs.Rows.{rows_in};
ghost use Rattle.comparison.specs.Entries.{together};
ghost use Rattle.comparison.specs.Json.{title_text};
ghost use Rattle.comparison.specs.Moved.{moved_in};
ghost use Rattle.comparison.specs.Table.{alone_text, change_text, changed_text, differ_lines, entry_cell, fits_on, fitted, headings, headings_text, line_of, line_text, lines_of, moved_lines, moved_text, name_width, named_width, or_headings, place_cell, place_of, place_width, places_text, table_lines, table_text, told_lines, told_text, told_width, widths_on};

use crate::entries::differences_in;
use crate::json::Title;
use crate::moved::{Moved, shift_behind};
use differences::Difference;
use pairing::pieces::{Piece, Shift};
use pairing::rows::{Row, Rows};
use refusal::{Mode, Refusal};
use report::cells::{AtLeft, AtRight, Name, Number, digits};
use sections::Part;
use std::alloc::{AllocError, Global};
use std::io::Write;
use std::{fmt, io};
use values::AsText;
use wording::strings::{Spaces, shown_width};
use wording::{Bytes, InWords};

// A line of the table: the two places, a name and a part, and last what is not padded.
#[derive(Clone, Copy)]
struct Line<'a> {
    a: Option<usize>,
    b: Option<usize>,
    name: Option<&'a [u8]>,
    told: Told<'a>,
}

// What a line tells of an entry.
#[derive(Clone, Copy)]
enum Told<'a> {
    // From here on so many bytes later in B.
    Moved(Shift),
    Differs(Difference<'a>),
    // With its name, or why there is none.
    OnlyInA(Result<&'a [u8], Refusal>),
    OnlyInB(Result<&'a [u8], Refusal>),
}

fn place_of(piece: &Option<Piece<'_>>) -> Option<usize>
    ensures { result ≡ place_of piece.now }
{
    match piece {
        Some(piece) => Some(piece.place),
        None => None,
    }
}

fn line_of<'a>(row: &Row<'a>, told: Told<'a>) -> Line<'a>
    ensures { result ≡ line_of row.now told.entry }
{
    Line {
        a: place_of(&row.a),
        b: place_of(&row.b),
        name: row.name(),
        told,
    }
}

// The lines of a row, behind one whose entry stood so many bytes later in B.
#[tactic(auto, unfolding(crate::specs::Table::lines_of))]
fn lines<'a>(
    alloc: Global,
    row: &Row<'a>,
    before: Shift,
    mode: Mode,
) -> Result<Vec<Line<'a>>, AllocError>
    ensures { IfOk result (λ all. all.items ≡ lines_of mode before row.now) }
{
    let mut all = Vec::new(alloc);
    push_moved(row, before, &mut all)?;
    if !row.is_alike() {
        push_told(alloc, row, mode, &mut all)?;
    }
    Ok(all)
}

fn push_moved<'a>(row: &Row<'a>, before: Shift, all: &mut Vec<Line<'a>>) -> Result<(), AllocError>
    ensures { OnOk result (all.new.items ≡ all.old.items ++ moved_lines row.now (moved_in before row.now.a row.now.b)) }
{
    if let Some(moved) = Moved::of(row, before) {
        all.push(line_of(row, Told::Moved(moved.shift)))?;
    }
    Ok(())
}

// What is told of a row whose entry differs, or which one upload has alone.
fn push_told<'a>(
    alloc: Global,
    row: &Row<'a>,
    mode: Mode,
    all: &mut Vec<Line<'a>>,
) -> Result<(), AllocError>
    ensures { OnOk result (all.new.items ≡ all.old.items ++ told_lines mode row.now row.now.a row.now.b) }
{
    match (&row.a, &row.b) {
        (Some(a), Some(b)) => {
            let differences = differences_in(alloc, a, b, mode)?;
            push_differences(row, differences.as_slice(), all)
        }
        (Some(a), None) => Ok(all.push(line_of(row, Told::OnlyInA(a.name)))?),
        (None, Some(b)) => Ok(all.push(line_of(row, Told::OnlyInB(b.name)))?),
        (None, None) => Ok(()),
    }
}

fn push_differences<'a>(
    row: &Row<'a>,
    differences: &[Difference<'a>],
    all: &mut Vec<Line<'a>>,
) -> Result<(), AllocError>
    ensures { OnOk result (all.new.items ≡ all.old.items ++ differ_lines row.now differences.now) }
{
    for one in differences {
        all.push(line_of(row, Told::Differs(*one)))?;
    }
    Ok(())
}

// The cell of a place, at the right of its column.
#[derive(Clone, Copy)]
struct PlaceCell {
    place: Option<usize>,
    column: usize,
}

impl fmt::Display for PlaceCell {
    ghost output = { λ c. Some (place_cell c.column c.place) };

    fn fmt<W: fmt::Write>(&self, f: &mut fmt::Formatter<W>) -> fmt::Result {
        let column = self.column;
        match self.place {
            Some(number) => Number { number, column }.fmt(f),
            None => AtRight("-", column).fmt(f),
        }
    }
}

// The cell of the name of an entry.
#[derive(Clone, Copy)]
struct NameCell<'a> {
    name: Option<&'a [u8]>,
    column: usize,
}

impl fmt::Display for NameCell<'_> {
    ghost output = { λ c. Some (entry_cell c.column c.name) };

    fn fmt<W: fmt::Write>(&self, f: &mut fmt::Formatter<W>) -> fmt::Result {
        let column = self.column;
        match self.name {
            Some(name) => Name { name, column }.fmt(f),
            None => AtLeft("(refused)", column).fmt(f),
        }
    }
}

fn name_width(name: Option<&[u8]>) -> usize
    ensures { result ≡ name_width name.entry }
{
    match name {
        Some(name) => shown_width(name),
        None => 9,
    }
}

fn place_width(place: Option<usize>) -> usize
    ensures { result ≡ place_width place }
{
    match place {
        Some(place) => digits(place, 10),
        None => 1,
    }
}

// How many characters the title of a difference has: all of ASCII.
fn title_width(alloc: Global, part: Option<Part>) -> Result<usize, AllocError>
    ensures { IfOk result (λ n. n ≡ length (title_text part)) }
{
    let title = Title(part);
    let title = format!(in alloc; "{title}")?;
    Ok(title.len())
}

// The title of a difference, which is so wide, at the left of its column.
#[derive(Clone, Copy)]
struct TitleCell {
    part: Option<Part>,
    width: usize,
    column: usize,
}

impl fmt::Display for TitleCell {
    ghost output = { λ c. Some (at_left c.column c.width (title_text c.part)) };

    fn fmt<W: fmt::Write>(&self, f: &mut fmt::Formatter<W>) -> fmt::Result {
        let title = Title(self.part);
        let gap = Spaces(self.column.saturating_sub(self.width));
        write!(f, "{title}{gap}")
    }
}

// How wide what stands in the column of parts is, if anything does.
fn told_width(alloc: Global, told: &Told<'_>) -> Result<usize, AllocError>
    ensures { IfOk result (λ n. n ≡ told_width told.now) }
{
    match told {
        Told::Moved(_) => Ok(0),
        Told::Differs(one) => title_width(alloc, one.part),
        Told::OnlyInA(_) | Told::OnlyInB(_) => Ok(9),
    }
}

// How wide the first four columns are.
#[derive(Clone, Copy)]
struct Widths {
    a: usize,
    b: usize,
    name: usize,
    part: usize,
}

// What is wider moves the rest of its own line alone, so that one long name does not pad every line.
const WIDEST: usize = 60;

// How wide the name in a line is to be, if one stands there.
fn named_width(line: &Line<'_>) -> usize
    ensures { result ≡ named_width line.now.name line.now.told }
{
    match line.told {
        Told::Moved(_) => 0,
        _ => name_width(line.name).min(WIDEST),
    }
}

impl Widths {
    // For the headings alone.
    fn new() -> Self
        ensures { result ≡ headings }
    {
        Widths {
            a: 1,
            b: 1,
            name: 4,
            part: 4,
        }
    }

    // Wide enough for one more line.
    #[tactic(auto, unfolding(crate::specs::Table::fitted))]
    fn fit(self, alloc: Global, line: &Line<'_>) -> Result<Widths, AllocError>
        ensures { IfOk result (λ w. w ≡ fitted self line.now) }
    {
        let part = told_width(alloc, &line.told)?;
        Ok(Widths {
            a: self.a.max(place_width(line.a)),
            b: self.b.max(place_width(line.b)),
            name: self.name.max(named_width(line)),
            part: self.part.max(part),
        })
    }
}

// For the headings alone where there was no line yet.
fn or_headings(widths: Option<Widths>) -> Widths
    ensures { result ≡ or_headings widths }
{
    match widths {
        Some(widths) => widths,
        None => Widths::new(),
    }
}

// Wide enough for some lines more.
fn fit_all(
    alloc: Global,
    widths: Option<Widths>,
    lines: &[Line<'_>],
) -> Result<Option<Widths>, AllocError>
    ensures { IfOk result (λ w. w ≡ fits_on widths lines.now) }
{
    let mut fits = widths;
    for line in lines {
        fits = Some(or_headings(fits).fit(alloc, line)?);
    }
    Ok(fits)
}

// The widths that the lines need, if there are any.
fn widths_of(alloc: Global, rows: &Rows<'_, '_>) -> Result<Option<Widths>, AllocError>
    ensures { IfOk result (λ w. w ≡ widths_on rows.now.mode together None (rows_in rows.now)) }
{
    let mut widths = None;
    let mut before = Shift::Later(0);
    for pair in rows.pairs {
        let row = rows.row(pair);
        let lines = lines(alloc, &row, before, rows.mode)?;
        widths = fit_all(alloc, widths, lines.as_slice())?;
        before = shift_behind(&row, before);
    }
    Ok(widths)
}

#[derive(Clone, Copy)]
struct MovedText(Shift);

impl fmt::Display for MovedText {
    ghost output = { λ m. Some (moved_text m.0) };

    fn fmt<W: fmt::Write>(&self, f: &mut fmt::Formatter<W>) -> fmt::Result {
        match self.0 {
            Shift::Later(0) => write!(f, "from here on at the same places"),
            Shift::Later(number) => {
                let bytes = Bytes(number);
                write!(f, "from here on {bytes} later in B")
            }
            Shift::Earlier(number) => {
                let bytes = Bytes(number);
                write!(f, "from here on {bytes} earlier in B")
            }
        }
    }
}

// What each tells of a part.
#[derive(Clone, Copy)]
struct Change<'a>(&'a Difference<'a>);

impl fmt::Display for Change<'_> {
    ghost output = { λ c. Some (change_text c.0.now) };

    fn fmt<W: fmt::Write>(&self, f: &mut fmt::Formatter<W>) -> fmt::Result {
        let in_a = AsText(self.0.in_a);
        let in_b = AsText(self.0.in_b);
        write!(f, "{in_a} -> {in_b}")
    }
}

// Which upload has an entry alone, and why it has no name, if it has none.
#[derive(Clone, Copy)]
struct Alone<'a> {
    word: &'static str,
    name: &'a Result<&'a [u8], Refusal>,
    column: usize,
}

impl fmt::Display for Alone<'_> {
    ghost output = { λ a. Some (alone_text a.column a.word.now a.name.now) };

    fn fmt<W: fmt::Write>(&self, f: &mut fmt::Formatter<W>) -> fmt::Result {
        let word = self.word;
        match self.name {
            Ok(_) => write!(f, "{word}"),
            Err(why) => {
                let word = AtLeft(word, self.column);
                let why = InWords(why);
                write!(f, "{word}  {why}")
            }
        }
    }
}

impl Widths {
    #[tactic(auto, unfolding(crate::specs::Table::headings_text))]
    fn write_headings<W: Write>(self, out: &mut W) -> io::Result<()>
        ensures { OnOk result (Appends (W.contents out.old) (W.contents out.new) (headings_text self)) }
    {
        let a = AtRight("A", self.a);
        let b = AtRight("B", self.b);
        let name = AtLeft("name", self.name);
        let part = AtLeft("part", self.part);
        writeln!(out, "{a}  {b}  {name}  {part}  in A -> in B")
    }

    // The two places.
    fn write_places<W: Write>(self, line: &Line<'_>, out: &mut W) -> io::Result<()>
        ensures { OnOk result (Appends (W.contents out.old) (W.contents out.new) (places_text self line.now)) }
    {
        let a = PlaceCell {
            place: line.a,
            column: self.a,
        };
        let b = PlaceCell {
            place: line.b,
            column: self.b,
        };
        write!(out, "{a}  {b}  ")
    }

    // What an entry tells that differs, behind its name.
    fn write_change<W: Write>(
        self,
        alloc: Global,
        name: Option<&[u8]>,
        one: &Difference<'_>,
        out: &mut W,
    ) -> io::Result<()>
        ensures { OnOk result (Appends (W.contents out.old) (W.contents out.new) (changed_text self name.entry one.now)) }
    {
        let name = NameCell {
            name,
            column: self.name,
        };
        let title = TitleCell {
            part: one.part,
            width: title_width(alloc, one.part)?,
            column: self.part,
        };
        let change = Change(one);
        writeln!(out, "{name}  {title}  {change}")
    }

    // What stands behind the places. No line ends in a space that is not an upload's own.
    fn write_told<W: Write>(self, alloc: Global, line: &Line<'_>, out: &mut W) -> io::Result<()>
        ensures { OnOk result (Appends (W.contents out.old) (W.contents out.new) (told_text self line.now.name line.now.told)) }
    {
        let cell = NameCell {
            name: line.name,
            column: self.name,
        };
        match &line.told {
            Told::Moved(shift) => {
                let moved = MovedText(*shift);
                writeln!(out, "{moved}")
            }
            Told::Differs(one) => self.write_change(alloc, line.name, one, out),
            Told::OnlyInA(name) => {
                let alone = Alone {
                    word: "only in A",
                    name,
                    column: self.part,
                };
                writeln!(out, "{cell}  {alone}")
            }
            Told::OnlyInB(name) => {
                let alone = Alone {
                    word: "only in B",
                    name,
                    column: self.part,
                };
                writeln!(out, "{cell}  {alone}")
            }
        }
    }

    #[tactic(auto, unfolding(crate::specs::Table::line_text))]
    fn write_line<W: Write>(self, alloc: Global, line: &Line<'_>, out: &mut W) -> io::Result<()>
        ensures { OnOk result (Appends (W.contents out.old) (W.contents out.new) (line_text self line.now)) }
    {
        self.write_places(line, out)?;
        self.write_told(alloc, line, out)?;
        Ok(())
    }

    fn write_lines<W: Write>(self, alloc: Global, lines: &[Line<'_>], out: &mut W) -> io::Result<()>
        ensures { OnOk result (Appends (W.contents out.old) (W.contents out.new) (flat_map (line_text self) lines.now)) }
    {
        for line in lines {
            self.write_line(alloc, line, out)?;
        }
        Ok(())
    }

    // The lines of a row, behind one whose entry stood so many bytes later in B.
    fn write_row<W: Write>(
        self,
        alloc: Global,
        row: &Row<'_>,
        before: Shift,
        mode: Mode,
        out: &mut W,
    ) -> io::Result<()>
        ensures { OnOk result (Appends (W.contents out.old) (W.contents out.new) (flat_map (line_text self) (lines_of mode before row.now))) }
    {
        let lines = lines(alloc, row, before, mode)?;
        self.write_lines(alloc, lines.as_slice(), out)
    }

    fn write_rows<W: Write>(self, alloc: Global, rows: &Rows<'_, '_>, out: &mut W) -> io::Result<()>
        ensures { OnOk result (Appends (W.contents out.old) (W.contents out.new) (table_lines self rows.now.mode together (rows_in rows.now))) }
    {
        let mut before = Shift::Later(0);
        for pair in rows.pairs {
            let row = rows.row(pair);
            self.write_row(alloc, &row, before, rows.mode, out)?;
            before = shift_behind(&row, before);
        }
        Ok(())
    }
}

/// Writes the table, or nothing where it has no line. The lines are made twice, once for their widths, and none is kept: there can be
/// millions.
#[tactic(auto, unfolding(crate::specs::Table::table_text))]
pub(crate) fn write<W: Write>(alloc: Global, rows: &Rows<'_, '_>, out: &mut W) -> io::Result<()>
    ensures { OnOk result (Appends (W.contents out.old) (W.contents out.new) (table_text rows.now.mode (rows_in rows.now))) }
{
    let Some(widths) = widths_of(alloc, rows)? else {
        return Ok(());
    };
    widths.write_headings(out)?;
    widths.write_rows(alloc, rows, out)?;
    Ok(())
}

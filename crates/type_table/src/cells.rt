//! The cells of text in the table of data types (docs/FORMAT.md, "The command's text").

ghost use Rattle.std.specs.Prelude.{◌≡◌, ◌≤◌, [], Some, codes, length};
ghost use Rattle.std.specs.Fmt.{signed_decimal};
ghost use Rattle.attribute.specs.Attribute as attribute;
ghost use Rattle.data_type.specs.Array as array;
ghost use Rattle.type_table.specs.Cells.{is_none, highest, array_cell, array_cells, array_width, arrays_width, attribute_cell, only_if, words_width};
ghost use Rattle.type_tree.specs.Joined.{joined, more};
ghost use Rattle.type_tree.specs.Marks.{marks_text, words_of};

use attribute::{AdsAttribute, Attributes};
use data_type::array::{AdsArrayInfo, ArrayInfos};
use flags::type_flags::AdsTypeFlags;
use report::cells::digits;
use std::fmt;
use type_tree::marks::{Marks, Style};
use type_tree::node::Dimensions;
use wording::strings::Shown;

/// How marks are told in a cell.
pub const IN_CELLS: Style = Style {
    between: ", ",
    quote: "",
};

fn only_if(is_set: bool, width: usize) -> usize
    ensures { result ≡ only_if is_set width }
{
    if is_set { width } else { 0 }
}

// How many characters the words of a flag word take, and two more for each.
fn own_width(flags: AdsTypeFlags) -> usize
    ensures same { result ≡ words_width (words_of [] flags.0) }
    ensures most { result ≤ 35 }
{
    only_if(flags.is_bit_values(), 6)
        + only_if(flags.is_static(), 8)
        + only_if(flags.is_reference_to(), 11)
        + only_if(flags.is_prop_item(), 10)
}

// The same of the words for what an entry stands in.
fn around_width(flags: AdsTypeFlags) -> usize
    ensures same { result ≡ words_width (words_of (codes "in ") flags.0) }
    ensures most { result ≤ 47 }
{
    only_if(flags.is_bit_values(), 9)
        + only_if(flags.is_static(), 11)
        + only_if(flags.is_reference_to(), 14)
        + only_if(flags.is_prop_item(), 13)
}

/// How many characters marks take in a cell.
pub fn marks_width(marks: Marks) -> usize
    ensures { result ≡ length (marks_text (codes ", ") [] marks) }
{
    let width = own_width(marks.own) + around_width(marks.around);
    width.saturating_sub(2)
}

// The highest index. It is below the lowest where there are no elements.
fn highest(one: AdsArrayInfo) -> i64
    ensures { result ≡ highest one }
{
    i64::from(one.lower_bound.cast_signed()) + i64::from(one.elements) - 1
}

fn signed_width(number: i64) -> usize
    ensures same { result ≡ length (signed_decimal number) }
    ensures most { result ≤ 65 }
{
    let width = digits(number.unsigned_abs() as usize, 10);
    if number < 0 {
        return width + 1;
    }
    width
}

// With the brackets, or the comma and the space before it.
#[tactic(auto, unfolding(crate::specs::Cells::array_width))]
fn array_width(one: AdsArrayInfo) -> usize
    ensures { result ≡ array_width one }
{
    let lower = signed_width(i64::from(one.lower_bound.cast_signed()));
    lower + signed_width(highest(one)) + 4
}

/// How many characters array records take in a cell.
pub fn arrays_width(arrays: ArrayInfos<'_>) -> usize
    ensures { result ≡ arrays_width (array.left arrays.entry) }
{
    let mut width = 0usize;
    for one in Dimensions(arrays) {
        width = width.saturating_add(array_width(one));
    }
    width
}

/// Array records as IEC 61131-3 writes them, the dimensions one after another. One without elements ends below its start.
#[derive(Clone, Copy)]
pub struct ArrayCell<'a>(pub ArrayInfos<'a>);

impl fmt::Display for ArrayCell<'_> {
    ghost output = { λ a. Some (array_cells (array.left a.0)) };

    fn fmt<W: fmt::Write>(&self, f: &mut fmt::Formatter<W>) -> fmt::Result {
        let mut rest = Dimensions(self.0);
        match rest.next() {
            None => Ok(()),
            Some(first) => {
                let first = Bounds(first);
                let more = MoreBounds(rest);
                write!(f, "[{first}{more}]")
            }
        }
    }
}

// Those behind the first, with a comma and a space before each.
#[derive(Clone, Copy)]
struct MoreBounds<'a>(Dimensions<'a>);

impl fmt::Display for MoreBounds<'_> {
    ghost output = { λ a. Some (more (codes ", ") array_cell (array.left a.0.0)) };

    fn fmt<W: fmt::Write>(&self, f: &mut fmt::Formatter<W>) -> fmt::Result {
        for one in self.0 {
            let one = Bounds(one);
            write!(f, ", {one}")?;
        }
        Ok(())
    }
}

#[derive(Clone, Copy)]
struct Bounds(AdsArrayInfo);

impl fmt::Display for Bounds {
    ghost output = { λ b. Some (array_cell b.0) };

    #[tactic(auto, unfolding(crate::specs::Cells::array_cell))]
    fn fmt<W: fmt::Write>(&self, f: &mut fmt::Formatter<W>) -> fmt::Result {
        let lower = self.0.lower_bound.cast_signed();
        let upper = highest(self.0);
        write!(f, "{lower}..{upper}")
    }
}

/// Attributes in one cell.
#[derive(Clone, Copy)]
pub struct AttributeCell<'a>(pub Attributes<'a>);

impl AttributeCell<'_> {
    /// Whether there are none.
    pub fn is_empty(self) -> bool
        ensures { result ≡ is_none (attribute.left self.entry.0) }
    {
        let mut rest = self.0;
        rest.next().is_none()
    }
}

impl fmt::Display for AttributeCell<'_> {
    ghost output = { λ a. Some (joined (codes "; ") attribute_cell (attribute.left a.0)) };

    fn fmt<W: fmt::Write>(&self, f: &mut fmt::Formatter<W>) -> fmt::Result {
        let mut rest = self.0;
        match rest.next() {
            None => Ok(()),
            Some(first) => {
                let first = OneAttribute(first);
                let more = MoreAttributes(rest);
                write!(f, "{first}{more}")
            }
        }
    }
}

// Those behind the first, with a semicolon and a space before each.
#[derive(Clone, Copy)]
struct MoreAttributes<'a>(Attributes<'a>);

impl fmt::Display for MoreAttributes<'_> {
    ghost output = { λ a. Some (more (codes "; ") attribute_cell (attribute.left a.0)) };

    fn fmt<W: fmt::Write>(&self, f: &mut fmt::Formatter<W>) -> fmt::Result {
        for one in self.0 {
            let one = OneAttribute(one);
            write!(f, "; {one}")?;
        }
        Ok(())
    }
}

#[derive(Clone, Copy)]
struct OneAttribute<'a>(AdsAttribute<'a>);

impl fmt::Display for OneAttribute<'_> {
    ghost output = { λ a. Some (attribute_cell a.0) };

    #[tactic(auto, unfolding(crate::specs::Cells::attribute_cell))]
    fn fmt<W: fmt::Write>(&self, f: &mut fmt::Formatter<W>) -> fmt::Result {
        let name = Shown(self.0.name);
        let value = Shown(self.0.value);
        write!(f, "{name} = {value}")
    }
}

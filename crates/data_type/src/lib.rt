//! Data type entries of an upload, read whole: array records and sub-items too, to the deepest level. What one holds is a part of the bytes that it was read from.
#![tactic(auto)]

ghost use Rattle.std.specs.Prelude.{◌≡◌};
ghost use Rattle.data_type.specs.DataType.{type_of};
ghost use Rattle.data_type.specs.Kind.{four, long, room, short, never_zero};

use crate::array::ArrayInfos;
use field::AdsFieldInfo;
use refusal::{Mode, Refusal};
use walk::{Accepts, Entry, Walker};

pub mod array;
pub mod level;
pub mod list;
pub mod members;
pub mod reader;
pub mod theorems;

/// The sub-items of an entry.
#[derive(Clone, Copy, Debug)]
pub struct SubItems<'a> {
    /// They stand at the start of these bytes, one behind another; what is left of the entry.
    pub bytes: &'a [u8],
    /// How many there are, without what they hold in turn.
    pub count: u16,
}

/// A data type (docs/FORMAT.md, "Data type entries").
#[derive(Clone, Copy, Debug)]
pub struct AdsDataTypeInfo<'a> {
    /// What a field has: numbers, strings, GUID and attributes. Where a sub-item stands in a value of its parent, and whether it does, its
    /// offset and its flags say (`AdsFieldInfo::offset`).
    pub field: AdsFieldInfo<'a>,
    /// The array records: the dimensions of an array.
    pub arrays: ArrayInfos<'a>,
    /// The sub-items: the members of a structure.
    pub sub_items: SubItems<'a>,
    /// How many members it has: its sub-items, theirs, and so on.
    pub member_count: usize,
}

impl<'a> Entry<'a> for AdsDataTypeInfo<'a> {
    ghost HEADER = { 42 };

    ghost read = { type_of };

    ghost length_of = { λ r. r.field.length };

    ghost four = { four };

    ghost long = { long };

    ghost room = { room };

    ghost short = { short };

    ghost never_zero = { never_zero };

    fn header() -> usize
        ensures { result ≡ 42 }
    {
        AdsFieldInfo::MIN_LENGTH
    }

    #[inline(always)]
    fn read(own: &'a [u8], mode: Mode) -> Result<Self, Refusal> {
        reader::read_entry(own, mode, reader::LEVELS)
    }
}

impl<'a> Accepts<'a> for AdsDataTypeInfo<'a> {
    #[inline(always)]
    fn accepts(own: &'a [u8], mode: Mode) -> Result<(), Refusal> {
        Self::read(own, mode)?;
        Ok(())
    }
}

/// The pieces of an upload of data types.
pub type DataTypes<'a> = Walker<'a, AdsDataTypeInfo<'a>>;

//! Field entries of an upload, read whole: what a field holds is a part of the bytes that it was read from.
#![tactic(auto, unfolding(layout::specs::Layout::guid_of, crate::specs::Tail::after_mask, crate::specs::Tail::after_methods, crate::specs::Tail::attributes_of, le::specs::Le::le2, le::specs::Le::le4))]

ghost use Rattle.std.specs.Prelude.{◌≡◌, ◌*◌};
ghost use Rattle.field.specs.Skip.{ahead};
ghost use Rattle.field.specs.Field.{joined, behind_items, field_of};
ghost use Rattle.field.specs.Kind.{four, long, room, short, never_zero};

use crate::front::Front;
use crate::skip::{after_items, ahead};
use crate::tail::Tail;
use attribute::Attributes;
use flags::type_flags::AdsTypeFlags;
use refusal::{Mode, Refusal};
use walk::{Accepts, Entry, Walker};

pub mod front;
pub mod skip;
pub mod tail;
pub mod theorems;
pub mod writer;

/// A field of a structure, or an entry of a data type read as one (docs/FORMAT.md, "Field entries"). Strings are Windows-1252,
/// without their end bytes.
#[derive(Clone, Copy, Debug)]
pub struct AdsFieldInfo<'a> {
    /// The entry's length in bytes.
    pub length: usize,
    /// The version of the entry's layout, as sent.
    pub version: u32,
    /// The maker's hash of the entry.
    pub hash_value: u32,
    /// The maker's hash of its type.
    pub type_hash_value: u32,
    /// The size of a value: in bytes, or in bits where the flags have `BIT_VALUES`.
    pub size: u32,
    /// Where it stands in a value of the type that has it: in bytes, or in bits where the flags have `BIT_VALUES`. A static one (`STATIC`)
    /// and a property (`PROP_ITEM`) have no place there; what stands below a reference (`REFERENCE_TO`) lies in what it refers to.
    pub offset: u32,
    /// The maker's number of its type.
    pub type_id: u32,
    /// Which sections follow, and what the field is.
    pub flags: AdsTypeFlags,
    /// The name.
    pub name: &'a [u8],
    /// The name of its type.
    pub type_name: &'a [u8],
    /// The comment.
    pub comment: &'a [u8],
    /// The GUID of its type, if it is flagged and its bytes are there.
    pub guid: Option<[u8; 16]>,
    /// The attributes. One that is refused refuses the field.
    pub attributes: Attributes<'a>,
}

impl<'a> AdsFieldInfo<'a> {
    /// The length of the header. The name stands behind it.
    pub const MIN_LENGTH: usize = 42;
    /// Where the name's length stands in the header.
    pub const NAME_LENGTH_AT: usize = 32;
    /// Where the length of the type's name stands in it.
    pub const TYPE_NAME_LENGTH_AT: usize = 34;
    /// Where the comment's length stands in it.
    pub const COMMENT_LENGTH_AT: usize = 36;

    /// The record of an entry with this front and this tail.
    #[inline(always)]
    pub fn joined(front: Front<'a>, tail: Tail<'a>) -> AdsFieldInfo<'a>
        ensures { result ≡ joined front.entry tail.entry }
    {
        AdsFieldInfo {
            length: front.length,
            version: front.version,
            hash_value: front.hash_value,
            type_hash_value: front.type_hash_value,
            size: front.size,
            offset: front.offset,
            type_id: front.type_id,
            flags: front.flags,
            name: front.name,
            type_name: front.type_name,
            comment: front.comment,
            guid: tail.guid,
            attributes: tail.attributes,
        }
    }
}

/// What stands behind so many array records, of 8 bytes each.
#[inline(always)]
fn behind_arrays(rest: &[u8], count: u16) -> &[u8]
    ensures { result ≡ ahead rest.entry (8 * count) }
{
    ahead(rest, 8 * count as usize)
}

/// What stands behind the array records and the sub-items of a field.
#[inline(always)]
fn behind_items<'a>(front: &Front<'a>) -> &'a [u8]
    ensures { result ≡ behind_items front.now }
{
    let items = behind_arrays(front.rest, front.array_count);
    after_items(items, front.sub_item_count as usize)
}

impl<'a> Entry<'a> for AdsFieldInfo<'a> {
    ghost HEADER = { 42 };

    ghost read = { field_of };

    ghost length_of = { λ r. r.length };

    ghost four = { four };

    ghost long = { long };

    ghost room = { room };

    ghost short = { short };

    ghost never_zero = { never_zero };

    fn header() -> usize
        ensures { result ≡ 42 }
    {
        Self::MIN_LENGTH
    }

    #[tactic(auto, unfolding(crate::specs::Field::field_of))]
    #[inline(always)]
    fn read(own: &'a [u8], mode: Mode) -> Result<Self, Refusal> {
        let front = Front::read(own, mode)?;
        let tail = Tail::read(&front, behind_items(&front), mode)?;
        Ok(AdsFieldInfo::joined(front, tail))
    }
}

impl<'a> Accepts<'a> for AdsFieldInfo<'a> {
    #[inline(always)]
    fn accepts(own: &'a [u8], mode: Mode) -> Result<(), Refusal> {
        Self::read(own, mode)?;
        Ok(())
    }
}

/// The walk over an upload of fields.
pub type Fields<'a> = Walker<'a, AdsFieldInfo<'a>>;

//! What entries of fields and of data types begin with: the header's numbers and the strings.
ghost use Rattle.std.specs.Prelude.{◌≡◌, ◌+◌, ◌≤◌, length};
ghost use Rattle.field.specs.Front.{strings_ended, with_strings, front_of};

use crate::AdsFieldInfo;
use flags::type_flags::AdsTypeFlags;
use refusal::{Mode, Refusal};

/// The header's numbers and the strings of an entry, and the bytes behind them.
#[derive(Clone, Copy, Debug)]
pub struct Front<'a> {
    /// The entry's length in bytes.
    pub length: usize,
    /// The version of the entry's layout, as sent.
    pub version: u32,
    /// The maker's hash of the entry.
    pub hash_value: u32,
    /// The maker's hash of its type.
    pub type_hash_value: u32,
    /// The size of a value: in bytes, or in bits where the flags have `BIT_VALUES`. A copy mask has as many bytes as this number says.
    pub size: u32,
    /// Where it stands in a value of the type that has it: in bytes, or in bits where the flags have `BIT_VALUES`. A static one (`STATIC`)
    /// and a property (`PROP_ITEM`) have no place there; what stands below a reference (`REFERENCE_TO`) lies in what it refers to.
    pub offset: u32,
    /// The maker's number of its type.
    pub type_id: u32,
    /// Which sections follow, and what the entry is.
    pub flags: AdsTypeFlags,
    /// The name.
    pub name: &'a [u8],
    /// The name of its type.
    pub type_name: &'a [u8],
    /// The comment.
    pub comment: &'a [u8],
    /// How many array records, of 8 bytes each, the header says that there are.
    pub array_count: u16,
    /// How many sub-items it says that there are.
    pub sub_item_count: u16,
    /// What stands behind the strings.
    pub rest: &'a [u8],
}

/// The front of an entry's own bytes whose strings have these lengths.
#[tactic(auto, unfolding(crate::specs::Front::with_strings))]
#[inline(always)]
fn with_strings(own: &[u8], name: usize, type_name: usize, comment: usize) -> Front<'_>
    requires { 45 + name + type_name + comment ≤ length own.now }
    ensures { result ≡ with_strings own.entry name type_name comment }
{
    let type_at = 43 + name;
    let comment_at = type_at + type_name + 1;
    let rest_at = comment_at + comment + 1;
    Front {
        length: own.len(),
        version: le::u32_at(own, 4),
        hash_value: le::u32_at(own, 8),
        type_hash_value: le::u32_at(own, 12),
        size: le::u32_at(own, 16),
        offset: le::u32_at(own, 20),
        type_id: le::u32_at(own, 24),
        flags: AdsTypeFlags(le::u32_at(own, 28)),
        name: &own[42..42 + name],
        type_name: &own[type_at..type_at + type_name],
        comment: &own[comment_at..comment_at + comment],
        array_count: le::u16_at(own, 38),
        sub_item_count: le::u16_at(own, 40),
        rest: &own[rest_at..],
    }
}

/// Refuses the first end byte that is not 0 of strings of these lengths, in the checked mode.
fn check_ends(
    own: &[u8],
    name: usize,
    type_name: usize,
    comment: usize,
    mode: Mode,
) -> Result<(), Refusal>
    requires { 45 + name + type_name + comment ≤ length own.now }
    ensures { result ≡ strings_ended mode own.now name type_name comment }
{
    if mode == Mode::Present {
        return Ok(());
    }
    layout::check_string_ends(own, 42, name, type_name, comment)
}

impl<'a> Front<'a> {
    /// Reads the front of an entry's own bytes.
    ///
    /// # Errors
    ///
    /// 2 for a header and 3 for strings that are not there; 16 for the first of their end bytes that is not 0, in the checked mode.
    #[tactic(auto, unfolding(crate::specs::Front::front_of))]
    #[inline(always)]
    pub fn read(own: &'a [u8], mode: Mode) -> Result<Front<'a>, Refusal>
        ensures { result ≡ front_of mode own.entry }
    {
        let length = own.len();
        if length < AdsFieldInfo::MIN_LENGTH {
            return Err(Refusal::TooShort {
                needed: AdsFieldInfo::MIN_LENGTH,
                present: length,
            });
        }
        let name = le::u16_at(own, AdsFieldInfo::NAME_LENGTH_AT) as usize;
        let type_name = le::u16_at(own, AdsFieldInfo::TYPE_NAME_LENGTH_AT) as usize;
        let comment = le::u16_at(own, AdsFieldInfo::COMMENT_LENGTH_AT) as usize;
        let needed = 45 + name + type_name + comment;
        layout::check_strings(needed, length)?;
        check_ends(own, name, type_name, comment, mode)?;
        Ok(with_strings(own, name, type_name, comment))
    }
}

//! Field entries, written into a lent buffer. docs/FORMAT.md, "Writing", decides what is refused.
#![tactic(auto, unfolding(crate::specs::Writing::numbers_bytes, crate::specs::Writing::header_bytes, crate::specs::Writing::guid_bytes, crate::specs::Writing::mask_bytes, crate::specs::Writing::sections_bytes, crate::specs::Writing::field_bytes, crate::specs::Writing::attributes_checked, crate::specs::Writing::field_checked))]

ghost use Rattle.std.specs.Prelude.{◌≡◌, ◌+◌, ◌≤◌, Ok, MatchResult, OnOk, length, if◌then◌else◌};
ghost use Rattle.le.specs.Put.{Wrote};
ghost use Rattle.walk.specs.Mapped.{map_ok};
ghost use Rattle.writing.specs.Checks.{IsShort};
ghost use Rattle.writing.specs.Writing.{Writes};
ghost use Rattle.writing.specs.Owned.{NotWritten};
ghost use Rattle.field.specs.Writing.{numbers_bytes, header_bytes, zeros, guid_bytes, mask_bytes, sections_bytes, field_bytes, attributes_checked, field_checked, field_written, HasShort, IsSized};

use flags::type_flags::AdsTypeFlags;
use layout::size_if;
use refusal::Refusal;
use std::alloc::Allocator;
use writing::{Block, WriteError};

/// A field to be written (docs/FORMAT.md, "Writing"). Strings are Windows-1252, without end bytes.
#[derive(Clone, Copy, Debug)]
pub struct NewField<'a> {
    /// The version of the entry's layout.
    pub version: u32,
    /// The maker's hash of the entry.
    pub hash_value: u32,
    /// The maker's hash of its type.
    pub type_hash_value: u32,
    /// The size of a value: in bytes, or in bits where the flags have `BIT_VALUES`. A copy mask, where it is flagged, has as many bytes as this number says.
    pub size: u32,
    /// Where it stands in a value of the type that has it: in bytes, or in bits where the flags have `BIT_VALUES`.
    pub offset: u32,
    /// The maker's number of its type.
    pub type_id: u32,
    /// Which sections are written; methods are not.
    pub flags: AdsTypeFlags,
    /// The name: at most 65,535 bytes, as the other strings.
    pub name: &'a [u8],
    /// The name of its type.
    pub type_name: &'a [u8],
    /// The comment.
    pub comment: &'a [u8],
    /// Written where it is flagged; 16 zeros for none.
    pub guid: Option<[u8; 16]>,
    /// Written where they are flagged; else not looked at.
    pub attributes: Block<'a>,
}

impl NewField<'_> {
    /// How many bytes the entry has.
    ///
    /// # Errors
    ///
    /// 7 for strings and a count that are too long; 9 for a block that is not its count of good attributes; 5 for an entry that
    /// is too large.
    pub fn wire_size(&self) -> Result<usize, Refusal>
        ensures { result ≡ map_ok length (field_written self.now) }
    {
        check(self)?;
        let size = size_of(self);
        writing::check_room(size, size)?;
        Ok(size)
    }

    /// Writes the entry at the start of a buffer, and tells how many bytes it has.
    ///
    /// # Errors
    ///
    /// Those of `wire_size`, then 6 if the buffer is too small. The buffer is then as it was.
    pub fn write(&self, out: &mut [u8]) -> Result<usize, Refusal>
        ensures { Writes (field_written self.now) out.old out.new result }
    {
        check(self)?;
        let size = size_of(self);
        writing::check_room(size, out.len())?;
        Ok(put_field(out, self, size as u32))
    }

    /// The entry, in memory of its own.
    ///
    /// # Errors
    ///
    /// Those of `wire_size`, and that there is no memory for it.
    pub fn to_vec<A: Allocator>(&self, alloc: A) -> Result<Vec<u8, A>, WriteError>
        ensures { MatchResult result (λ v. field_written self.now ≡ Ok v.items) (NotWritten (field_written self.now)) }
    {
        let size = self.wire_size()?;
        let mut out = vec![in alloc; 0; size]?;
        self.write(&mut out)?;
        Ok(out)
    }
}

#[tactic(auto, using(writing::proofs::Entry::count_passed), unfolding(crate::specs::Writing::attributes_checked))]
fn check_attributes(field: &NewField<'_>) -> Result<(), Refusal>
    ensures value { result ≡ attributes_checked field.now }
    ensures sized { OnOk result (HasShort field.now) }
{
    let flags = field.flags;
    let attributes = field.attributes;
    if !flags.has_attributes() {
        return Ok(());
    }
    writing::check_count(attributes.count)?;
    attribute::check_block(attributes.count, attributes.bytes)?;
    Ok(())
}

#[tactic(auto, using(writing::proofs::Entry::strings_passed), unfolding(crate::specs::Writing::field_checked))]
fn check(field: &NewField<'_>) -> Result<(), Refusal>
    ensures value { result ≡ field_checked field.now }
    ensures sized { OnOk result (IsSized field.now) }
{
    writing::check_strings(field.name, field.type_name, field.comment)?;
    check_attributes(field)?;
    Ok(())
}

fn guid_size(here: bool, guid: Option<[u8; 16]>) -> usize
    ensures value { result ≡ length (guid_bytes here guid) }
    ensures small { result ≤ 16 }
{
    if !here {
        return 0;
    }
    match guid {
        Some(bytes) => bytes.len(),
        None => 16,
    }
}

fn size_of(field: &NewField<'_>) -> usize
    requires { IsSized field.now }
    ensures { result ≡ length (field_bytes field.now) }
{
    let flags = field.flags;
    let strings = field.name.len() + field.type_name.len() + field.comment.len();
    let guid = guid_size(flags.has_type_guid(), field.guid);
    let mask = size_if(flags.has_copy_mask(), field.size as usize);
    let attributes = size_if(flags.has_attributes(), field.attributes.bytes.len() + 2);
    45 + strings + guid + mask + attributes
}

fn put_numbers(out: &mut [u8], at: usize, field: &NewField<'_>) -> usize
    requires { at + 28 ≤ length out.old }
    ensures { Wrote out.old at (numbers_bytes field.now) out.new result }
{
    let flags = field.flags;
    let a = le::put_u32(out, at, field.version);
    let b = le::put_u32(out, a, field.hash_value);
    let c = le::put_u32(out, b, field.type_hash_value);
    let d = le::put_u32(out, c, field.size);
    let e = le::put_u32(out, d, field.offset);
    let f = le::put_u32(out, e, field.type_id);
    le::put_u32(out, f, flags.0)
}

fn put_header(out: &mut [u8], at: usize, field: &NewField<'_>) -> usize
    requires short { IsShort field.now.name.now field.now.type_name.now field.now.comment.now }
    requires at_in_bounds { at + 38 ≤ length out.old }
    ensures { Wrote out.old at (header_bytes field.now) out.new result }
{
    let a = put_numbers(out, at, field);
    let b = writing::put_lengths(out, a, field.name, field.type_name, field.comment);
    let c = le::put_u16(out, b, 0);
    le::put_u16(out, c, 0)
}

fn put_zeros(out: &mut [u8], at: usize, count: usize) -> usize
    requires { at + count ≤ length out.old }
    ensures { Wrote out.old at (zeros count) out.new result }
{
    let next = at + count;
    out[at..next].fill(0);
    next
}

fn put_guid(out: &mut [u8], at: usize, here: bool, guid: Option<[u8; 16]>) -> usize
    requires { at + length (guid_bytes here guid) ≤ length out.old }
    ensures { Wrote out.old at (guid_bytes here guid) out.new result }
{
    if !here {
        return at;
    }
    match guid {
        Some(bytes) => le::put_bytes(out, at, &bytes),
        None => put_zeros(out, at, 16),
    }
}

fn put_mask(out: &mut [u8], at: usize, here: bool, size: usize) -> usize
    requires { at + length (mask_bytes here size) ≤ length out.old }
    ensures { Wrote out.old at (mask_bytes here size) out.new result }
{
    if here {
        return put_zeros(out, at, size);
    }
    at
}

fn put_sections(out: &mut [u8], at: usize, field: &NewField<'_>) -> usize
    requires sized { IsSized field.now }
    requires block_in_bounds { at + length (sections_bytes field.now) ≤ length out.old }
    ensures { Wrote out.old at (sections_bytes field.now) out.new result }
{
    let flags = field.flags;
    let attributes = field.attributes;
    let a = put_guid(out, at, flags.has_type_guid(), field.guid);
    let b = put_mask(out, a, flags.has_copy_mask(), field.size as usize);
    writing::put_attributes(
        out,
        b,
        flags.has_attributes(),
        attributes.count,
        attributes.bytes,
    )
}

fn put_field(out: &mut [u8], field: &NewField<'_>, size: u32) -> usize
    requires sized { IsSized field.now }
    requires size_is { length (field_bytes field.now) ≡ size }
    requires size_in_bounds { size ≤ length out.old }
    ensures { Wrote out.old 0 (field_bytes field.now) out.new result }
{
    let a = le::put_u32(out, 0, size);
    let b = put_header(out, a, field);
    let c = writing::put_strings(out, b, field.name, field.type_name, field.comment);
    put_sections(out, c, field)
}

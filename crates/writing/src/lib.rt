//! What writers of entries promise of a lent buffer, and what they share: the checks of lengths and of room, and the inner writers at a place.
#![tactic(auto, unfolding(crate::specs::Layout::lengths_bytes, crate::specs::Layout::strings_bytes, crate::specs::Layout::attributes_bytes, crate::specs::Checks::strings_checked, crate::specs::Checks::room_checked))]

ghost use Rattle.std.specs.Prelude.{◌≡◌, true, ◌+◌, ◌≤◌, length};
ghost use Rattle.le.specs.Put.{Wrote};
ghost use Rattle.writing.specs.Layout.{lengths_bytes, string_bytes, strings_bytes, attributes_bytes};
ghost use Rattle.writing.specs.One.{OneWriting};
ghost use Rattle.writing.specs.Meant.{ChecksMeant, LayoutsMeant, WritesMeant};
ghost use Rattle.writing.specs.Checks.{count_checked, strings_checked, size_checked, room_checked, IsShort};

mod error;

pub use error::WriteError;
use refusal::{LIMIT, Refusal};

/// Records to write as a block: their bytes, one after another, and how many they are.
#[derive(Clone, Copy, Debug)]
pub struct Block<'a> {
    /// The records, one after another.
    pub bytes: &'a [u8],
    /// How many they are said to be.
    pub count: usize,
}

/// What a 2-byte length or count holds at most.
const MOST: usize = 65535;

/// Refuses with 7 a length or count that its 2 bytes do not hold.
pub fn check_count(actual: usize) -> Result<(), Refusal>
    ensures { result ≡ count_checked actual }
{
    if MOST < actual {
        return Err(Refusal::TooLong { most: MOST, actual });
    }
    Ok(())
}

/// The same of an entry's three strings, in order.
pub fn check_strings(name: &[u8], type_name: &[u8], comment: &[u8]) -> Result<(), Refusal>
    ensures { result ≡ strings_checked name.now type_name.now comment.now }
{
    check_count(name.len())?;
    check_count(type_name.len())?;
    check_count(comment.len())
}

/// Refuses an entry of so many bytes with 5 if it is too large.
pub fn check_size(length: usize) -> Result<(), Refusal>
    ensures { result ≡ size_checked length }
{
    if LIMIT < length {
        return Err(Refusal::TooLarge { length });
    }
    Ok(())
}

/// The same, and then with 6 if fewer are lent.
pub fn check_room(needed: usize, lent: usize) -> Result<(), Refusal>
    ensures { result ≡ room_checked needed lent }
{
    check_size(needed)?;
    if lent < needed {
        return Err(Refusal::OutputTooSmall { needed, lent });
    }
    Ok(())
}

/// Writes the lengths of an entry's three strings at a place, and gives the place after them.
pub fn put_lengths(
    out: &mut [u8],
    at: usize,
    name: &[u8],
    type_name: &[u8],
    comment: &[u8],
) -> usize
    requires short { IsShort name.now type_name.now comment.now }
    requires at_in_bounds { at + 6 ≤ length out.old }
    ensures { Wrote out.old at (lengths_bytes name.now type_name.now comment.now) out.new result }
{
    let a = le::put_u16(out, at, name.len() as u16);
    let b = le::put_u16(out, a, type_name.len() as u16);
    le::put_u16(out, b, comment.len() as u16)
}

fn put_string(out: &mut [u8], at: usize, s: &[u8]) -> usize
    requires { at + length s.now + 1 ≤ length out.old }
    ensures { Wrote out.old at (string_bytes s.now) out.new result }
{
    let a = le::put_bytes(out, at, s);
    le::put_u8(out, a, 0)
}

/// Writes an entry's three strings, each with its end byte.
pub fn put_strings(
    out: &mut [u8],
    at: usize,
    name: &[u8],
    type_name: &[u8],
    comment: &[u8],
) -> usize
    requires { at + length name.now + length type_name.now + length comment.now + 3 ≤ length out.old }
    ensures { Wrote out.old at (strings_bytes name.now type_name.now comment.now) out.new result }
{
    let a = put_string(out, at, name);
    let b = put_string(out, a, type_name);
    put_string(out, b, comment)
}

/// Writes the attributes, where they are flagged: a 2-byte count, then the block of records as it stands.
pub fn put_attributes(out: &mut [u8], at: usize, flagged: bool, count: usize, block: &[u8]) -> usize
    requires count_bound { flagged ≡ true → count ≤ 65535 }
    requires block_in_bounds { at + length (attributes_bytes flagged count block.now) ≤ length out.old }
    ensures { Wrote out.old at (attributes_bytes flagged count block.now) out.new result }
{
    if flagged {
        let a = le::put_u16(out, at, count as u16);
        return le::put_bytes(out, a, block);
    }
    at
}

// Theorems. Each is the contract of a function that does nothing, so that none goes unnoticed if its proof does.

/// Two answers and two buffers that one promise of a writer allows are equal.
pub fn one_writing()
    ensures { OneWriting }
{}

/// What is too long is 7, the first of three strings first; then 5 above the limit, then 6.
pub fn checks_meant()
    ensures { ChecksMeant }
{}

/// Where the parts of an entry stand: its length, the lengths of its strings, each string with an end byte of 0, a count and
/// a block.
pub fn layouts_meant()
    ensures { LayoutsMeant }
{}

/// What a promise to write says: a refusal, and 6 where too little is lent, leave the buffer, and what is written stands from
/// place 0 on, with nothing behind it changed.
pub fn writes_meant()
    ensures { WritesMeant }
{}

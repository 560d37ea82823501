//! What entries of every kind have alike: three strings behind the header, each with an end byte, and sections behind them, a GUID among
//! these (docs/FORMAT.md, "Numbers", "Symbol entries" and "Field entries").
#![tactic(auto, unfolding(crate::specs::Layout::guid_of))]

ghost use Rattle.std.specs.Prelude.{◌≡◌, ◌+◌, ◌≤◌, length, if◌then◌else◌};
ghost use Rattle.refusal.specs.EndBytes.{ended};
ghost use Rattle.layout.specs.Layout.{strings_there, string_ends, guid_of};
ghost use Rattle.layout.specs.Meant.{LayoutMeant};

use refusal::Refusal;

/// Refuses, with 3, a header and strings that need more bytes than are there.
#[inline(always)]
pub fn check_strings(needed: usize, available: usize) -> Result<(), Refusal>
    ensures { result ≡ strings_there needed available }
{
    if available < needed {
        return Err(Refusal::EntryLengthMismatch { needed, available });
    }
    Ok(())
}

/// Refuses, with 16, the first end byte that is not 0 of three strings of these lengths, which stand in an entry from a place on.
#[tactic(auto, using(refusal::proofs::EndBytes::ended_passed, refusal::proofs::EndBytes::ended_refused, refusal::proofs::EndBytes::ended_none))]
pub fn check_string_ends(
    own: &[u8],
    at: usize,
    name: usize,
    type_name: usize,
    comment: usize,
) -> Result<(), Refusal>
    requires { at + 3 + name + type_name + comment ≤ length own.now }
    ensures { result ≡ ended (string_ends own.now at name type_name comment) }
{
    let name_end = at + name;
    let type_end = name_end + 1 + type_name;
    let comment_end = type_end + 1 + comment;
    refusal::check_end(name_end, own[name_end])?;
    refusal::check_end(type_end, own[type_end])?;
    refusal::check_end(comment_end, own[comment_end])
}

/// The GUID at the start of what is left of an entry, and what is behind it. One that is not flagged, or has no room, is absent and moves
/// nothing.
#[inline(always)]
pub fn read_guid(rest: &[u8], flagged: bool) -> (Option<[u8; 16]>, &[u8])
    ensures { result ≡ guid_of rest.entry flagged }
{
    if flagged && let Some((guid, _)) = rest.split_first_chunk::<16>() {
        return (Some(*guid), &rest[16..]);
    }
    (None, rest)
}

/// The bytes of a section that has so many where it is there.
pub fn size_if(here: bool, size: usize) -> usize
    ensures value { result ≡ (if here then size else 0) }
    ensures small { result ≤ size }
{
    if here { size } else { 0 }
}

/// The theorem, as the contract of a function that does nothing: strings that are there pass, each string's end byte is the one behind it,
/// and a GUID is 16 bytes that are there.
pub fn layout_meant()
    ensures { LayoutMeant }
{}

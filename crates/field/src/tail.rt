//! What entries of fields and of data types end with: GUID, copy mask, methods and attributes.
ghost use Rattle.std.specs.Prelude.{◌≡◌};
ghost use Rattle.le.specs.Le.{has};
ghost use Rattle.refusal.specs.EndBytes.{ended, in_mode};
ghost use Rattle.field.specs.Tail.{after_mask, after_methods, attributes_of, sections_of, complete, attribute_ends, tail_of};

use crate::front::Front;
use crate::skip::{after_items, ahead};
use attribute::Attributes;
use refusal::{Mode, Refusal};

/// What stands behind the sub-items of an entry.
#[derive(Clone, Copy, Debug)]
pub struct Tail<'a> {
    /// If it is flagged and its bytes are there.
    pub guid: Option<[u8; 16]>,
    /// As many as are shown.
    pub attributes: Attributes<'a>,
}

#[inline(always)]
fn skip_mask(rest: &[u8], size: usize, flagged: bool) -> &[u8]
    ensures { result ≡ after_mask rest.entry size flagged }
{
    if flagged { ahead(rest, size) } else { rest }
}

#[inline(always)]
fn skip_methods(rest: &[u8], flagged: bool) -> &[u8]
    ensures { result ≡ after_methods rest.entry flagged }
{
    if !flagged || rest.len() < 2 {
        return rest;
    }
    after_items(&rest[2..], le::u16_at(rest, 0) as usize)
}

/// The attributes, and why there are no more, if one was refused.
#[inline(always)]
fn read_attributes(rest: &[u8], flagged: bool) -> (Attributes<'_>, Option<Refusal>)
    ensures { result ≡ attributes_of rest.entry flagged }
{
    if !flagged || rest.len() < 2 {
        let none = Attributes {
            bytes: rest,
            count: 0,
        };
        return (none, None);
    }
    let found = attribute::list(&rest[2..], le::u16_at(rest, 0) as usize);
    (found.attributes, found.stopped)
}

/// Refuses the first end byte that is not 0 of attributes at the end of an entry of so many bytes, in the checked mode.
#[inline(always)]
fn check_ends(attributes: Attributes<'_>, length: usize, mode: Mode) -> Result<(), Refusal>
    ensures { result ≡ in_mode mode (ended (attribute_ends length attributes.entry)) }
{
    if mode == Mode::Present {
        return Ok(());
    }
    attributes.check_ends(length)
}

/// Refuses a list that ended before its count, by the attribute that was refused.
#[inline(always)]
fn check_whole(stopped: Option<Refusal>) -> Result<(), Refusal>
    ensures { result ≡ complete stopped }
{
    match stopped {
        None => Ok(()),
        Some(why) => Err(why),
    }
}

impl<'a> Tail<'a> {
    /// Reads the tail of an entry with this front, from the bytes behind its sub-items on.
    ///
    /// # Errors
    ///
    /// 16 for the first end byte of an attribute that is not 0, in the checked mode; then 1 or 2 of an attribute that is refused.
    #[tactic(auto, unfolding(crate::specs::Tail::tail_of))]
    #[inline(always)]
    pub fn read(front: &Front<'_>, rest: &'a [u8], mode: Mode) -> Result<Tail<'a>, Refusal>
        ensures { result ≡ tail_of mode front.now rest.entry }
    {
        let flags = front.flags;
        let (guid, rest) = layout::read_guid(rest, flags.has_type_guid());
        let rest = skip_mask(rest, front.size as usize, flags.has_copy_mask());
        let rest = skip_methods(rest, flags.has_method_infos());
        let (attributes, stopped) = read_attributes(rest, flags.has_attributes());
        check_ends(attributes, front.length, mode)?;
        check_whole(stopped)?;
        Ok(Tail { guid, attributes })
    }
}

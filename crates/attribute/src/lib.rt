//! Attributes: a name and a value each, as parts of the bytes that they were read from.
#![tactic(auto, unfolding(crate::specs::Attribute::first_of, crate::specs::Attribute::listed, crate::specs::Attribute::after_listed))]

ghost use Rattle.std.specs.Prelude.{◌≡◌, ◌+◌, ◌<◌, ◌^◌, length, ◌-◌};
ghost use Rattle.std.specs.Iterator.{item_count};
ghost use Rattle.refusal.specs.EndBytes.{ended};
ghost use Rattle.attribute.specs.Attribute.{first_of, listed, left, NextGives, after_listed, stopped, turn, ends, numbered, named, alone};

mod block;
pub mod theorems;
mod writer;

pub use block::check_block;
use refusal::{LIMIT, Mode, Refusal};

/// An attribute (docs/FORMAT.md, "Attributes"). Its strings are parts of the bytes that it was read from, Windows-1252, without their end bytes.
#[derive(Clone, Copy, Debug, PartialEq, Eq)]
pub struct AdsAttribute<'a> {
    /// The name, of at most 255 bytes.
    pub name: &'a [u8],
    /// The value, likewise.
    pub value: &'a [u8],
}

/// The attributes of an entry, read one by one as they are asked for.
#[derive(Clone, Copy, Debug)]
pub struct Attributes<'a> {
    /// What the attributes begin: the bytes left, to the end of the entry.
    pub bytes: &'a [u8],
    /// How many there are, or as many as can be read of the bytes.
    pub count: usize,
}

/// The attribute at the start of some bytes, and the bytes after it.
pub fn first(bytes: &[u8]) -> Result<(AdsAttribute<'_>, &[u8]), Refusal>
    ensures { result ≡ first_of bytes.entry }
{
    let present = bytes.len();
    if present < AdsAttribute::MIN_LENGTH {
        return Err(Refusal::TooShort {
            needed: AdsAttribute::MIN_LENGTH,
            present,
        });
    }
    let name = bytes[0] as usize;
    let value = bytes[1] as usize;
    let needed = name + value + 4;
    if present < needed {
        return Err(Refusal::UnexpectedLength { needed, present });
    }
    let attribute = AdsAttribute {
        name: &bytes[2..name + 2],
        value: &bytes[name + 3..name + 3 + value],
    };
    Ok((attribute, &bytes[needed..]))
}

/// Refuses the end bytes of the attribute at the start of some bytes, which begin at a place of an entry, unless they are 0:
/// its name's, then its value's. Gives the bytes after it, and their place; nothing where none is there.
#[inline(always)]
#[tactic(auto, using(crate::proofs::Room::room, refusal::proofs::EndBytes::ended_passed, refusal::proofs::EndBytes::ended_refused), unfolding(crate::specs::Attribute::turn))]
fn check_two_ends(bytes: &[u8], place: usize) -> Result<Option<(&[u8], usize)>, Refusal>
    requires { place + length bytes.now < 2 ^ 64 }
    ensures { result ≡ turn bytes.entry place }
{
    let Ok((attribute, next)) = first(bytes) else {
        return Ok(None)
    };
    let name_end = 2 + attribute.name.len();
    let value_end = name_end + 1 + attribute.value.len();
    refusal::check_end(place + name_end, bytes[name_end])?;
    refusal::check_end(place + value_end, bytes[value_end])?;
    Ok(Some((next, place + value_end + 1)))
}

impl<'a> AdsAttribute<'a> {
    /// The fewest bytes that one has: two lengths and two end bytes.
    pub const MIN_LENGTH: usize = 4;

    /// Reads an attribute that stands alone. Other bytes may follow it.
    #[tactic(auto)]
    pub fn parse(bytes: &'a [u8], mode: Mode) -> Result<AdsAttribute<'a>, Refusal>
        ensures { result ≡ alone mode bytes.entry }
    {
        let length = bytes.len();
        if length > LIMIT {
            return Err(Refusal::TooLarge { length });
        }
        let (attribute, _) = first(bytes)?;
        if mode == Mode::Checked {
            Attributes { bytes, count: 1 }.ends_from(0)?;
        }
        Ok(attribute)
    }
}

impl<'a> Iterator for Attributes<'a> {
    type Item = AdsAttribute<'a>;

    ghost next_gives = { NextGives };

    ghost remaining = { item_count left };

    #[tactic(auto, unfolding(crate::specs::Attribute::first_of, crate::specs::Attribute::listed, crate::specs::Attribute::after_next))]
    fn next(&mut self) -> Option<AdsAttribute<'a>> {
        if self.count == 0 {
            return None;
        }
        self.count -= 1;
        match first(self.bytes) {
            Ok((attribute, rest)) => {
                self.bytes = rest;
                Some(attribute)
            }
            Err(_) => {
                self.count = 0;
                None
            }
        }
    }
}

/// Attributes, the bytes after them, and why there are no more, if one was refused.
#[derive(Clone, Copy, Debug)]
pub struct Listed<'a> {
    /// The attributes before it.
    pub attributes: Attributes<'a>,
    /// The bytes after them.
    pub rest: &'a [u8],
    /// Why there are no more.
    pub stopped: Option<Refusal>,
}

/// At most so many attributes, up to one that is refused, with its refusal. Where the bytes end after an attribute, none is
/// refused: as many are owed as are not listed.
#[tactic(auto, using(crate::proofs::Laws::nothing_listed, crate::proofs::Laws::nothing_after), unfolding(crate::specs::Attribute::listed, crate::specs::Attribute::after_listed, crate::specs::Attribute::stopped))]
pub fn list(bytes: &[u8], most: usize) -> Listed<'_>
    ensures attributes { result.attributes ≡ record { bytes = bytes.entry; count = length (listed bytes.entry most) } }
    ensures rest { result.rest ≡ after_listed bytes.entry most }
    ensures stopped { result.stopped ≡ stopped bytes.entry most }
{
    let mut listed = Listed {
        attributes: Attributes { bytes, count: 0 },
        rest: bytes,
        stopped: None,
    };
    while listed.attributes.count < most {
        match first(listed.rest) {
            Ok((_, rest)) => {
                listed.rest = rest;
                listed.attributes.count += 1;
                if rest.is_empty() {
                    break;
                }
            }
            Err(why) => {
                listed.stopped = Some(why);
                break;
            }
        }
    }
    listed
}

impl<'a> Attributes<'a> {
    /// The attribute with a number, counted from 0; past the last 14, with how many there are.
    #[tactic(auto, using(crate::proofs::Laws::listed_most))]
    pub fn get(mut self, number: usize) -> Result<AdsAttribute<'a>, Refusal>
        ensures { let all = left self.entry in result ≡ numbered all (length all) number }
    {
        let all = self;
        match self.nth(number) {
            Some(attribute) => Ok(attribute),
            None => Err(Refusal::NoSuchNumber {
                count: all.count(),
                asked: number,
            }),
        }
    }

    /// The first attribute with a name.
    pub fn named(mut self, name: &[u8]) -> Result<AdsAttribute<'a>, Refusal>
        ensures { result ≡ named (left self.entry) name.now }
    {
        self.find(|attribute| attribute.name == name)
            .ok_or(Refusal::NameNotFound)
    }

    /// Refuses the first end byte that is not 0 of attributes whose bytes are the last of an entry of so many bytes.
    ///
    /// # Errors
    ///
    /// 16, with the byte's place in the entry.
    pub fn check_ends(self, whole: usize) -> Result<(), Refusal>
        ensures { result ≡ ended (ends self.entry.bytes (whole - length self.entry.bytes.now) self.entry.count) }
    {
        self.ends_from(whole.saturating_sub(self.bytes.len()))
    }

    // The first attribute begins at a place.
    #[tactic(auto, using(crate::proofs::Turn::ends_here, crate::proofs::Turn::is_bad, crate::proofs::Turn::none_left))]
    fn ends_from(self, place: usize) -> Result<(), Refusal>
        requires { place + length self.bytes.now < 2 ^ 64 }
        ensures { result ≡ ended (ends self.entry.bytes place self.entry.count) }
    {
        let mut rest = self;
        let mut at = place;
        while rest.count > 0 {
            let Some((next, after)) = check_two_ends(rest.bytes, at)? else {
                break
            };
            rest.bytes = next;
            rest.count -= 1;
            at = after;
        }
        Ok(())
    }
}

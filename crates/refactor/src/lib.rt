//! Refactor records, which tell the info names of a symbol, and chains of them.
#![tactic(auto, unfolding(crate::specs::Refactor::first_of, crate::specs::Refactor::listed, le::specs::Le::le2, le::specs::Le::le4))]

ghost use Rattle.std.specs.Prelude.{◌≡◌, ◌+◌, ◌<◌, ◌^◌, length, ◌-◌};
ghost use Rattle.std.specs.Iterator.{item_count};
ghost use Rattle.refusal.specs.EndBytes.{ended};
ghost use Rattle.refactor.specs.Refactor.{first_of, alone, infos_of, chain_alone, left, NextGives, turn, ends, numbered};

mod block;
pub mod theorems;
mod writer;

pub use block::check_block;
use refusal::{LIMIT, Mode, Refusal};
pub use writer::write_entries;

/// A refactor record (docs/FORMAT.md, "Refactor records").
#[derive(Clone, Copy, Debug, PartialEq, Eq)]
pub struct AdsRefactorInfo<'a> {
    /// How often it was renamed, packed: under the mask 0x01111111.
    pub refactor_count: u32,
    /// Whether another record follows.
    pub next_refactor_info: bool,
    /// The former name, if any.
    pub name: &'a [u8],
}

/// The records of a chain, read one by one as they are asked for.
#[derive(Clone, Copy, Debug)]
pub struct RefactorInfos<'a> {
    /// The bytes that they begin.
    pub bytes: &'a [u8],
    /// How many there are, or as many as can be read of the bytes.
    pub count: usize,
}

/// The record at the start of some bytes, and the bytes after it; 2 where there are too few.
pub fn first(bytes: &[u8]) -> Result<(AdsRefactorInfo<'_>, &[u8]), Refusal>
    ensures { result ≡ first_of bytes.entry }
{
    let present = bytes.len();
    if present < AdsRefactorInfo::MIN_LENGTH {
        return Err(Refusal::TooShort {
            needed: AdsRefactorInfo::MIN_LENGTH,
            present,
        });
    }
    let name = le::u16_at(bytes, 4) as usize;
    let needed = name + 7;
    if present < needed {
        return Err(Refusal::TooShort { needed, present });
    }
    let packed = le::u32_at(bytes, 0);
    let info = AdsRefactorInfo {
        refactor_count: packed & AdsRefactorInfo::REFACTOR_COUNT_MASK,
        next_refactor_info: le::has(packed, AdsRefactorInfo::NEXT_REFACTOR_INFO_MASK),
        name: &bytes[6..6 + name],
    };
    Ok((info, &bytes[needed..]))
}

/// The chain at the start of some bytes, and the bytes after it; the refusal of the first of its records that is refused.
#[tactic(auto, using(crate::proofs::Turn::room, crate::proofs::Turn::goes_on, crate::proofs::Turn::is_last, crate::proofs::Turn::is_refused))]
pub fn chain(bytes: &[u8]) -> Result<(RefactorInfos<'_>, &[u8]), Refusal>
    ensures { result ≡ infos_of bytes.entry }
{
    let mut rest = RefactorInfos { bytes, count: 0 };
    loop {
        let (info, next) = first(rest.bytes)?;
        rest.bytes = next;
        rest.count += 1;
        if !info.next_refactor_info {
            let count = rest.count;
            return Ok((RefactorInfos { bytes, count }, rest.bytes));
        }
    }
}

/// Refuses the end byte of the record at the start of some bytes, which begin at a place of an entry, unless it is 0.
/// Gives the bytes of the record that follows, and their place.
#[inline(always)]
#[tactic(auto, using(crate::proofs::Turn::room), unfolding(crate::specs::Refactor::turn))]
fn check_end(bytes: &[u8], place: usize) -> Result<Option<(&[u8], usize)>, Refusal>
    requires { place + length bytes.now < 2 ^ 64 }
    ensures { result ≡ turn bytes.entry place }
{
    let Ok((info, next)) = first(bytes) else {
        return Ok(None)
    };
    let end = 6 + info.name.len();
    refusal::check_end(place + end, bytes[end])?;
    if !info.next_refactor_info {
        return Ok(None);
    }
    Ok(Some((next, place + end + 1)))
}

/// Refuses the first end byte that is not 0 of the chain at the start of some bytes, which are the last of an entry of so many
/// bytes. A chain that is refused at a later record has end bytes up to there.
///
/// # Errors
///
/// 16, with the byte's place in the entry.
pub fn check_ends(bytes: &[u8], whole: usize) -> Result<(), Refusal>
    ensures { result ≡ ended (ends bytes.entry (whole - length bytes.now)) }
{
    ends_from(bytes, whole.saturating_sub(bytes.len()))
}

// The chain begins at a place.
#[tactic(auto, using(crate::proofs::Turn::goes_further, crate::proofs::Turn::ends_here, crate::proofs::Turn::is_bad))]
fn ends_from(bytes: &[u8], place: usize) -> Result<(), Refusal>
    requires { place + length bytes.now < 2 ^ 64 }
    ensures { result ≡ ended (ends bytes.entry place) }
{
    let mut rest = RefactorInfos { bytes, count: 0 };
    let mut at = place;
    while let Some((next, after)) = check_end(rest.bytes, at)? {
        rest.bytes = next;
        rest.count += 1;
        at = after;
    }
    Ok(())
}

impl<'a> AdsRefactorInfo<'a> {
    /// The fewest bytes that one has: the packed count, the name's length and its end byte.
    pub const MIN_LENGTH: usize = 7;

    /// What the count is packed with. It contains the bit of `NEXT_REFACTOR_INFO_MASK`.
    pub const REFACTOR_COUNT_MASK: u32 = 0x0111_1111;

    /// The bit of the packed count that says that another record follows.
    pub const NEXT_REFACTOR_INFO_MASK: u32 = 0x0100_0000;

    /// Reads a record that stands alone: 5, 2, and in the checked mode 16. Other bytes may follow it.
    #[tactic(auto, using(crate::proofs::Turn::room))]
    pub fn parse(bytes: &'a [u8], mode: Mode) -> Result<AdsRefactorInfo<'a>, Refusal>
        ensures { result ≡ alone mode bytes.entry }
    {
        let length = bytes.len();
        if length > LIMIT {
            return Err(Refusal::TooLarge { length });
        }
        let (info, _) = first(bytes)?;
        if mode == Mode::Checked {
            let end = 6 + info.name.len();
            refusal::check_end(end, bytes[end])?;
        }
        Ok(info)
    }
}

impl<'a> Iterator for RefactorInfos<'a> {
    type Item = AdsRefactorInfo<'a>;

    ghost next_gives = { NextGives };

    ghost remaining = { item_count left };

    #[tactic(auto, unfolding(crate::specs::Refactor::first_of, crate::specs::Refactor::listed, crate::specs::Refactor::after_next, le::specs::Le::le2, le::specs::Le::le4))]
    fn next(&mut self) -> Option<AdsRefactorInfo<'a>> {
        if self.count == 0 {
            return None;
        }
        self.count -= 1;
        match first(self.bytes) {
            Ok((info, rest)) => {
                self.bytes = rest;
                Some(info)
            }
            Err(_) => {
                self.count = 0;
                None
            }
        }
    }
}

impl<'a> RefactorInfos<'a> {
    /// Reads a chain that stands alone, and gives the bytes after it too: 5, in the checked mode the first end byte that is
    /// not 0, also of a chain that is refused at a later record, and then 2.
    #[tactic(auto)]
    pub fn parse(bytes: &'a [u8], mode: Mode) -> Result<(RefactorInfos<'a>, &'a [u8]), Refusal>
        ensures { result ≡ chain_alone mode bytes.entry }
    {
        let length = bytes.len();
        if length > LIMIT {
            return Err(Refusal::TooLarge { length });
        }
        if mode == Mode::Checked {
            ends_from(bytes, 0)?;
        }
        chain(bytes)
    }

    /// The record with a number, counted from 0; past the last 14, with how many there are.
    #[tactic(auto, using(crate::proofs::Left::listed_most))]
    pub fn get(mut self, number: usize) -> Result<AdsRefactorInfo<'a>, Refusal>
        ensures { let all = left self.entry in result ≡ numbered all (length all) number }
    {
        let all = self;
        match self.nth(number) {
            Some(info) => Ok(info),
            None => Err(Refusal::NoSuchNumber {
                count: all.count(),
                asked: number,
            }),
        }
    }
}

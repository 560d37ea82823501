//! An entry is read through its list of sub-items, and each sub-item as an entry, with a level less below it.
#![tactic(auto, unfolding(crate::specs::DataType::taken, crate::specs::DataType::arrays_of))]

ghost use Rattle.std.specs.Prelude.{◌≡◌, ◌*◌, ◌<◌, ◌^◌, IfOk};
ghost use Rattle.data_type.specs.DataType.{taken, arrays_of, item_at, items_from, type_at, SomeMembers, SomeItems};

use crate::array::ArrayInfos;
use crate::{AdsDataTypeInfo, SubItems};
use field::AdsFieldInfo;
use field::front::Front;
use field::tail::Tail;
use refusal::{Mode, Refusal};

/// The levels below the root, which stands at depth 1.
pub const LEVELS: usize = 15;

/// The own bytes of the sub-item at the start of some bytes of its parent, and the bytes behind it.
#[inline(always)]
pub(crate) fn taken(bytes: &[u8]) -> Result<(&[u8], &[u8]), Refusal>
    ensures { result ≡ taken bytes.entry }
{
    let left = bytes.len();
    if left < 4 {
        return Err(Refusal::TooShort {
            needed: 4,
            present: left,
        });
    }
    let claim = le::u32_at(bytes, 0) as usize;
    if left < claim {
        return Err(Refusal::EntryLengthMismatch {
            needed: claim,
            available: left,
        });
    }
    if claim < AdsFieldInfo::MIN_LENGTH {
        return Err(Refusal::ClaimBelowHeader {
            header: AdsFieldInfo::MIN_LENGTH,
            claim,
        });
    }
    Ok((&bytes[..claim], &bytes[claim..]))
}

/// How many bytes the array records of an entry with this front fill.
#[inline(always)]
fn arrays_length(front: &Front<'_>) -> usize
    ensures { result ≡ 8 * front.now.array_count }
{
    8 * front.array_count as usize
}

/// The array records of an entry with this front, and the bytes behind them.
#[inline(always)]
pub(crate) fn read_arrays<'a>(front: &Front<'a>) -> Result<(ArrayInfos<'a>, &'a [u8]), Refusal>
    requires { front.now.length < 2 ^ 63 }
    ensures { result ≡ arrays_of front.now }
{
    let needed = arrays_length(front);
    let available = front.rest.len();
    if available < needed {
        return Err(Refusal::EntryLengthMismatch {
            needed: front.length.saturating_sub(available) + needed,
            available: front.length,
        });
    }
    let arrays = ArrayInfos {
        bytes: &front.rest[..needed],
        count: front.array_count as usize,
    };
    Ok((arrays, &front.rest[needed..]))
}

/// Sub-items that were read: the bytes behind them, and how many members they bring.
#[derive(Clone, Copy, Debug)]
pub struct SubItemsRead<'a> {
    /// The bytes behind them.
    pub rest: &'a [u8],
    /// How many members they bring, themselves among them.
    pub members: usize,
}

/// An entry's own bytes, where there may be so many levels below it. It is inlined where a list of sub-items is read, which keeps
/// the number of their members alone, so that no record is made of them.
#[tactic(auto, using(crate::proofs::Entry::fits))]
#[inline(always)]
#[cycle(read_entry_read_items)]
pub(crate) fn read_entry(
    own: &[u8],
    mode: Mode,
    left: usize,
) -> Result<AdsDataTypeInfo<'_>, Refusal>
    ensures value { result ≡ type_at mode left own.entry }
    ensures few { IfOk result (SomeMembers own.now) }
{
    let front = Front::read(own, mode)?;
    let (arrays, first) = read_arrays(&front)?;
    let items = read_items(first, mode, left, front.sub_item_count)?;
    let sub_items = SubItems {
        bytes: first,
        count: front.sub_item_count,
    };
    let tail = Tail::read(&front, items.rest, mode)?;
    Ok(AdsDataTypeInfo {
        field: AdsFieldInfo::joined(front, tail),
        arrays,
        sub_items,
        member_count: items.members,
    })
}

/// So many sub-items at the start of some bytes. A loop, since there may be 65,535 of them.
#[cycle(read_entry_read_items)]
fn read_items(
    first: &[u8],
    mode: Mode,
    left: usize,
    count: u16,
) -> Result<SubItemsRead<'_>, Refusal>
    ensures value { result ≡ items_from (item_at mode left) first.entry count }
    ensures few { IfOk result (SomeItems first.now) }
{
    let mut done = SubItemsRead {
        rest: first,
        members: 0,
    };
    let mut todo = count;
    while 0 < todo {
        todo -= 1;
        let deepest = left == 0;
        if deepest {
            return Err(Refusal::TooDeep);
        }
        let (own, behind) = taken(done.rest)?;
        let item = read_entry(own, mode, left - 1)?;
        done.members += 1 + item.member_count;
        done.rest = behind;
    }
    Ok(done)
}

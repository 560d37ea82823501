//! All members of a data type in one pass, into lent slots.
#![tactic(auto)]

ghost use Rattle.std.specs.Prelude.{◌≡◌, ◌+◌, ◌≤◌, length};
ghost use Rattle.le.specs.Put.{Wrote};
ghost use Rattle.writing.specs.Writing.{Writes};
ghost use Rattle.data_type.specs.List.{member_slots, members_written};

use crate::AdsDataTypeInfo;
use crate::members::Position;
use refusal::{Mode, Refusal};

/// Writes the slots of a member from a place on, and tells the place behind them.
#[inline(always)]
fn put_member(slots: &mut [u64], at: usize, position: &Position) -> usize
    requires { at + 3 ≤ length slots.old }
    ensures { Wrote slots.old at (member_slots position.now) slots.new result }
{
    slots[at] = position.place() as u64;
    slots[at + 1] = position.depth as u64;
    slots[at + 2] = position.offset;
    at + 3
}

/// Writes of each member, parents before children, three slots: its place in bytes from the start of the data type's entry, its
/// depth, the data type's own being 1, and the sum of the offsets along its path, with what that leaves to the flags
/// ([`Position`](crate::members::Position)). It is refused as the reading is, and then with 6, which counts slots; the slots are
/// then as they were.
pub fn list(bytes: &[u8], mode: Mode, slots: &mut [u64]) -> Result<usize, Refusal>
    ensures { Writes (members_written mode bytes.entry) slots.old slots.new result }
{
    let info = walk::parse::<AdsDataTypeInfo>(bytes, mode)?;
    let needed = 3 * info.member_count;
    let lent = slots.len();
    if lent < needed {
        return Err(Refusal::OutputTooSmall { needed, lent });
    }
    let mut at = 0;
    for member in info.members() {
        at = put_member(slots, at, &member.position);
    }
    Ok(at)
}

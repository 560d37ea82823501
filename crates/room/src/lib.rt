//! How many slots to set aside for the index of an upload, by its length alone (docs/FORMAT.md, "Room").
#![tactic(auto, unfolding(crate::specs::Room::room_for))]

ghost use Rattle.std.specs.Prelude.{◌≡◌};
ghost use Rattle.room.specs.Room.{room_for};
ghost use Rattle.room.specs.Meaning.{RoomMeant};

use refusal::{LIMIT, Refusal};

// The least bytes of an accepted entry: a header of 30 and three end bytes.
const LEAST: usize = 33;

/// The slots that are enough for the index of any upload, since none is answered more.
pub const ROOM_MOST: usize = 508_400;

const _: () = prove!(ROOM_MOST == LIMIT / LEAST);

/// How many slots are enough for the index of every upload of so many bytes, in both modes.
///
/// # Errors
///
/// 5 above the limit.
pub fn room(length: usize) -> Result<usize, Refusal>
    ensures { result ≡ room_for length }
{
    if length > LIMIT {
        return Err(Refusal::TooLarge { length });
    }
    Ok(length / LEAST)
}

// The theorem, as the contract of a function that does nothing.

/// So many slots are enough for the index of every upload of that length, fewer are not, what is refused no index takes; and no other operation is so.
pub fn room_meant()
    ensures { RoomMeant }
{}

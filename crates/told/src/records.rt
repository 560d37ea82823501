//! The record of an entry, told: at the start of some bytes, and by a step of the walk, whatever its kind.
ghost use Rattle.std.specs.Prelude.{◌≡◌, ℕ, List, Option, Ok};
ghost use Rattle.std.specs.Borrow.{Bor};
ghost use Rattle.refusal.specs.declared.Mode.{Mode};
ghost use Rattle.walk.specs.Step.{parse_of, step_at};
ghost use Rattle.told.specs.Told.{Tells, done, record_told, step_told};
ghost use Rattle.told.specs.Slots.{slots_after, step_after, guid_bytes};

use crate::{DONE, FINISHED, refused, tell};
use refusal::Mode;
use walk::{Cursor, Entry};

/// A kind of entry whose record is told in slots, and a GUID.
pub trait Told<'a>: Entry<'a> {
    /// As many numbers as it has slots.
    type Slots: Copy;

    // its places fit its length
    ghost shown: { Self → Type 0 };

    ghost slots: { Self → Self.Slots };

    ghost guid: { Self → Option (List ℕ) };

    fn slots(&self) -> Self::Slots
        requires { shown self.now }
        ensures { result ≡ slots self.now };

    fn guid(&self) -> Option<[u8; 16]>
        ensures { result ≡ guid self.now };

    // as those of an accepted entry do
    ghost accepted: { (mode : Mode) (e : Bor (List ℕ)) (r : Self) → Self.read mode e ≡ Ok r → shown r };
}

// A record, told. Put into its callers, since a record that is handed on is copied, and a step then takes half as long again.
#[inline(always)]
pub(crate) fn tell_record<'a, E: Told<'a>>(
    found: &E,
    slots: &mut E::Slots,
    guid: &mut [u8; 16],
    answer: &mut [u64; 2],
) -> u32
    requires { E.shown found.now }
    ensures tells { Tells (done 0 0) result answer.new }
    ensures slots_after { slots.new ≡ E.slots found.now }
    ensures guid_after { guid.new ≡ guid_bytes (E.guid found.now) }
{
    *slots = found.slots();
    *guid = found.guid().unwrap_or([0; 16]);
    tell(DONE, 0, 0, answer)
}

/// The record of the entry at the start of some bytes.
#[inline(always)]
pub fn read<'a, E: Told<'a>>(
    bytes: &'a [u8],
    mode: Mode,
    slots: &mut E::Slots,
    guid: &mut [u8; 16],
    answer: &mut [u64; 2],
) -> u32
    ensures tells { Tells (record_told (parse_of E.HEADER (E.read mode) bytes.entry)) result answer.new }
    ensures slots_after { slots.new ≡ slots_after E.slots (parse_of E.HEADER (E.read mode) bytes.entry) slots.old }
    ensures guid_after { guid.new ≡ slots_after (λ r. guid_bytes (E.guid r)) (parse_of E.HEADER (E.read mode) bytes.entry) guid.old }
{
    match walk::parse::<E>(bytes, mode) {
        Ok(found) => tell_record(&found, slots, guid, answer),
        Err(why) => refused(why, answer),
    }
}

/// A step of the walk.
#[inline(always)]
#[tactic(auto, unfolding(walk::specs::Step::step_at))]
pub fn step<'a, E: Told<'a>>(
    bytes: &'a [u8],
    mode: Mode,
    cursor: &mut usize,
    slots: &mut E::Slots,
    guid: &mut [u8; 16],
    answer: &mut [u64; 2],
) -> u32
    ensures tells { Tells (step_told (step_at (E.read mode) bytes.entry cursor.old).answer) result answer.new }
    ensures cursor_after { cursor.new ≡ (step_at (E.read mode) bytes.entry cursor.old).cursor.at }
    ensures slots_after { slots.new ≡ step_after E.slots (step_at (E.read mode) bytes.entry cursor.old).answer slots.old }
    ensures guid_after { guid.new ≡ step_after (λ r. guid_bytes (E.guid r)) (step_at (E.read mode) bytes.entry cursor.old).answer guid.old }
{
    let from = Cursor { at: *cursor };
    let stepped = from.step::<E>(bytes, mode);
    *cursor = stepped.cursor.at;
    match stepped.answer {
        None => tell(FINISHED, 0, 0, answer),
        Some(Ok(found)) => tell_record(&found, slots, guid, answer),
        Some(Err(why)) => refused(why, answer),
    }
}

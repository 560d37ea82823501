//! The index of starts of an upload of entries of any kind.
#![tactic(auto, unfolding(crate::specs::Index::tally_of, crate::specs::Index::starts))]

ghost use Rattle.std.specs.Prelude.{◌≡◌, ◌≤◌, length};
ghost use Rattle.le.specs.Put.{put};
ghost use Rattle.refusal.specs.Refusal.{limit};
ghost use Rattle.refusal.specs.declared.Mode.{Mode};
ghost use Rattle.writing.specs.Writing.{Writes};
ghost use Rattle.walk.specs.Pieces.{pieces};
ghost use Rattle.index.specs.Index.{starts, tally_of, indexing};
ghost use Rattle.index.specs.Steps.{BySteps};
ghost use Rattle.index.specs.Meaning.{StartsAscend, IndexMeant};

use refusal::{LIMIT, Mode, Refusal};
use walk::{Accepted, Accepts, Entry, Walker};

// How many entries are accepted, unless a zero claim is met.
fn count<'a, E: Entry<'a>>(bytes: &'a [u8], mode: Mode) -> Result<usize, Refusal>
    ensures { result ≡ tally_of (pieces (E.read mode) bytes.entry) }
{
    let mut count = 0;
    for piece in Walker::<E>::new(bytes, mode) {
        match piece.answer {
            Ok(_) => count += 1,
            Err(Refusal::ZeroEntryLength) => return Err(Refusal::ZeroEntryLength),
            Err(_) => {}
        }
    }
    Ok(count)
}

// The slots are known to be enough.
fn write_starts<'a, E: Entry<'a>>(bytes: &'a [u8], mode: Mode, slots: &mut [u32])
    requires limited { length bytes.now ≤ limit }
    requires enough { length (starts (pieces (E.read mode) bytes)) ≤ length slots.old }
    ensures { slots.new ≡ put slots.old 0 (starts (pieces (E.read mode) bytes.entry)) }
{
    let mut count = 0;
    for piece in Walker::<E>::new(bytes, mode) {
        if piece.answer.is_err() {
            continue;
        }
        slots[count] = piece.start as u32;
        count += 1;
    }
}

/// Writes where each accepted entry starts, in order. The upload is walked before a slot is written, so a refusal leaves the slots as they were.
pub fn build<'a, E: Accepts<'a>>(
    bytes: &'a [u8],
    mode: Mode,
    slots: &mut [u32],
) -> Result<usize, Refusal>
    ensures { Writes (indexing (E.read mode) bytes.entry) slots.old slots.new result }
{
    let length = bytes.len();
    if length > LIMIT {
        return Err(Refusal::TooLarge { length });
    }
    let needed = count::<Accepted<E>>(bytes, mode)?;
    let lent = slots.len();
    if lent < needed {
        return Err(Refusal::OutputTooSmall { needed, lent });
    }
    write_starts::<Accepted<E>>(bytes, mode, slots);
    Ok(needed)
}

// The theorems. Each is the contract of a function that does nothing, so that none goes unnoticed if its proof does.

/// The index is that of the steps which give a record, and 10 that of a step that stands.
pub fn by_steps<'a, E: Entry<'a>>()
    ensures { (mode : Mode) → BySteps (E.read mode) }
{}

/// The starts ascend, so no entry stands twice in an index.
pub fn starts_ascend<'a, E: Entry<'a>>()
    ensures { (mode : Mode) → StartsAscend (E.read mode) }
{}

/// An upload above the limit is refused by 5; within it one in which a step stands by 10; else too few slots by 6, with how many are needed and how many were lent; else the index is built: a slot for each step of the walk that gives a record, with its place, in order. A refusal leaves the slots as they were.
pub fn index_meant<'a, E: Entry<'a>>()
    ensures { (mode : Mode) → IndexMeant (E.read mode) }
{}

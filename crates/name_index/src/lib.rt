//! The name index of an upload: its starts in the order of the names there; finding through it by halving, and the branch of a text (docs/FORMAT.md, "Name index").
#![tactic(auto)]

ghost use Rattle.std.specs.Prelude.{◌≡◌, ◌≤◌, filter, length};
ghost use Rattle.le.specs.Put.{put};
ghost use Rattle.writing.specs.Writing.{Writes};
ghost use Rattle.index.specs.Steps.{gives};
ghost use Rattle.name_index.specs.Index.{name_indexing, Halves};
ghost use Rattle.name_index.specs.Branching.{in_branch, branching, HalvesBranch};

pub mod theorems;

use named::Named;
use refusal::{LIMIT, Mode, Refusal};

/// Writes where each accepted entry starts, in the order of their names, A to Z equal to a to z, and of the starts where names are the same. A refusal leaves the slots as they were.
///
/// # Errors
///
/// 5 above the limit, 10 where a zero claim is met, 6 where there are too few slots.
pub fn build<'a, E: Named<'a>>(
    bytes: &'a [u8],
    mode: Mode,
    slots: &mut [u32],
) -> Result<usize, Refusal>
    ensures { Writes (name_indexing E.places (E.read mode) bytes.entry) slots.old slots.new result }
{
    let count = index::build::<E>(bytes, mode, slots)?;
    name_order::sort_starts(bytes, E::places(), &mut slots[..count]);
    Ok(count)
}

// A text that is asked for, of an upload.
#[derive(Clone, Copy)]
struct Asked<'a, 't> {
    bytes: &'a [u8],
    mode: Mode,
    text: &'t [u8],
}

impl<'a> Asked<'a, '_> {
    // Whether the step from a place gives a record.
    #[tactic(auto, using(entry::proofs::Claims::room_at), unfolding(walk::specs::Step::step_at))]
    fn gives<E: Named<'a>>(self, at: usize) -> bool
        ensures { result ≡ gives (E.read self.entry.mode) self.entry.bytes at }
    {
        match entry::claim_at(self.bytes, at).size {
            Some(Ok(size)) => E::accepts(&self.bytes[at..at + size], self.mode).is_ok(),
            _ => false,
        }
    }

    // Whether it gives one whose name begins with the text.
    #[inline(always)]
    fn has<E: Named<'a>>(self, at: usize) -> bool
        ensures { result ≡ in_branch E.places (E.read self.entry.mode) self.entry.bytes self.entry.text.now at }
    {
        let name = name_order::name_at(self.bytes, E::places(), at);
        if name.len() < self.text.len() {
            return false;
        }
        if !names::same_name(name, 0, self.text) {
            return false;
        }
        self.gives::<E>(at)
    }

    // How many of some slots are in the branch.
    fn count<E: Named<'a>>(self, slots: &[u32]) -> usize
        ensures { result ≡ length (filter (in_branch E.places (E.read self.entry.mode) self.entry.bytes self.entry.text.now) slots.now) }
    {
        let mut count = 0;
        for slot in slots {
            if self.has::<E>(*slot as usize) {
                count += 1;
            }
        }
        count
    }

    // The slots are known to be enough.
    fn put<E: Named<'a>>(self, slots: &[u32], out: &mut [u32])
        requires { length (filter (in_branch E.places (E.read self.mode) self.bytes self.text.now) slots.now) ≤ length out.old }
        ensures { out.new ≡ put out.old 0 (filter (in_branch E.places (E.read self.entry.mode) self.entry.bytes self.entry.text.now) slots.now) }
    {
        let mut count = 0;
        for slot in slots {
            if self.has::<E>(*slot as usize) {
                out[count] = *slot;
                count += 1;
            }
        }
    }
}

/// Finds a name through a name index, by halving: the first of those that have the name. Any slots may be lent, and through any an entry that is answered has the name.
///
/// # Errors
///
/// 5 above the limit, 13 where the name is not found.
pub fn find_ordered<'a, E: Named<'a>>(
    bytes: &'a [u8],
    mode: Mode,
    slots: &[u32],
    name: &[u8],
) -> Result<usize, Refusal>
    ensures { Halves E.places (E.read mode) E.name_of bytes.entry slots.now name.now result }
{
    let before = name_order::starts_before(bytes, E::places(), slots, name);
    let rest = &slots[before..];
    let one = rest.len().min(1);
    name_find::find_indexed::<E>(bytes, mode, &rest[..one], name)
}

/// Writes those of some slots at which an entry starts whose name begins with a text, A to Z equal to a to z, in the slots' order. Any other slot is passed over, whatever it holds. A refusal leaves the lent places as they were.
///
/// # Errors
///
/// 5 above the limit, 6 where too few places are lent.
pub fn branch<'a, E: Named<'a>>(
    bytes: &'a [u8],
    mode: Mode,
    slots: &[u32],
    text: &[u8],
    out: &mut [u32],
) -> Result<usize, Refusal>
    ensures { Writes (branching E.places (E.read mode) bytes.entry slots.now text.now) out.old out.new result }
{
    let length = bytes.len();
    if length > LIMIT {
        return Err(Refusal::TooLarge { length });
    }
    let asked = Asked { bytes, mode, text };
    let needed = asked.count::<E>(slots);
    let lent = out.len();
    if lent < needed {
        return Err(Refusal::OutputTooSmall { needed, lent });
    }
    asked.put::<E>(slots, out);
    Ok(needed)
}

/// The same through a name index, by halving: only the branch's own slots are looked at. Any slots may be lent, and from any only entries of the branch are written.
///
/// # Errors
///
/// 5 above the limit, 6 where too few places are lent.
pub fn branch_ordered<'a, E: Named<'a>>(
    bytes: &'a [u8],
    mode: Mode,
    slots: &[u32],
    text: &[u8],
    out: &mut [u32],
) -> Result<usize, Refusal>
    ensures { HalvesBranch E.places (E.read mode) bytes.entry slots.now text.now out.old out.new result }
{
    let run = name_order::branch_run(bytes, E::places(), slots, text);
    branch::<E>(bytes, mode, run, text, out)
}

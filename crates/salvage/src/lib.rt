//! Salvages an upload of entries of any kind: every accepted entry into a new upload, and beside it what was dropped.
#![tactic(auto)]

ghost use Rattle.std.specs.Prelude.{◌≡◌, ◌+◌, ◌≤◌, ◌∷◌, [], ℕ, List, Err, length};
ghost use Rattle.std.specs.Borrow.{Bor};
ghost use Rattle.le.specs.Put.{put, Wrote};
ghost use Rattle.refusal.specs.Refusal.{limit, figures_of};
ghost use Rattle.refusal.specs.declared.Mode.{Mode};
ghost use Rattle.refusal.specs.declared.Refusal.{Refusal};
ghost use Rattle.walk.specs.Mapped.{map_ok};
ghost use Rattle.walk.specs.Pieces.{pieces};
ghost use Rattle.salvage.specs.Salvage.{kept, dropped, salvaging};
ghost use Rattle.salvage.specs.Cover.{Covers};
ghost use Rattle.salvage.specs.Meaning.{SalvageMeant, CoverOnce};
ghost use Rattle.salvage.specs.Both.{WritesBoth, OneWritingBoth};

use refusal::{LIMIT, Mode, Refusal};
use walk::{Accepted, Accepts, Entry, Walker};

/// How many bytes of the new upload and how many slots of the list were written.
#[derive(Clone, Copy, Debug, PartialEq, Eq)]
pub struct Salvaged {
    /// Bytes of the new upload.
    pub bytes: usize,
    /// Slots of the list, three a run.
    pub slots: usize,
}

fn number_of(why: Refusal) -> u32
    ensures { result ≡ (figures_of why).number }
{
    let figures = why.figures();
    figures.number
}

// A run: where it starts, how long it is, and the number that it was refused with.
fn put_run(runs: &mut [u32], at: usize, start: usize, long: usize, number: u32) -> usize
    requires room { at + 3 ≤ length runs.old }
    requires start_fits { start ≤ limit }
    requires long_fits { long ≤ limit }
    ensures { Wrote runs.old at (start ∷ long ∷ number ∷ []) runs.new result }
{
    runs[at] = start as u32;
    runs[at + 1] = long as u32;
    runs[at + 2] = number;
    at + 3
}

// What a salvage writes, counted before a byte is written.
fn measure<'a, E: Entry<'a>>(bytes: &'a [u8], mode: Mode) -> Salvaged
    requires { length bytes.now ≤ limit }
    ensures kept_bytes { result.bytes ≡ length (kept bytes.now (pieces (E.read mode) bytes.entry)) }
    ensures run_slots { result.slots ≡ length (dropped (pieces (E.read mode) bytes.entry)) }
{
    let mut kept = 0;
    let mut slots = 0;
    for piece in Walker::<E>::new(bytes, mode) {
        match piece.answer {
            Ok(_) => kept += piece.end - piece.start,
            Err(_) => slots += 3,
        }
    }
    Salvaged { bytes: kept, slots }
}

// Both buffers are known to be large enough.
fn write<'a, E: Entry<'a>>(bytes: &'a [u8], mode: Mode, out: &mut [u8], runs: &mut [u32])
    requires limited { length bytes.now ≤ limit }
    requires out_room { length (kept bytes.now (pieces (E.read mode) bytes)) ≤ length out.old }
    requires runs_room { length (dropped (pieces (E.read mode) bytes)) ≤ length runs.old }
    ensures out_after { out.new ≡ put out.old 0 (kept bytes.now (pieces (E.read mode) bytes.entry)) }
    ensures runs_after { runs.new ≡ put runs.old 0 (dropped (pieces (E.read mode) bytes.entry)) }
{
    let mut count = 0;
    let mut slots = 0;
    for piece in Walker::<E>::new(bytes, mode) {
        let start = piece.start;
        let long = piece.end - start;
        match piece.answer {
            Ok(_) => count = le::put_bytes(out, count, &bytes[start..piece.end]),
            Err(why) => slots = put_run(runs, slots, start, long, number_of(why)),
        }
    }
}

/// Copies each accepted entry to the new upload `out`, unchanged and in order, and lists in `runs` what was dropped, three slots each: where it starts, how
/// long it is, and the number of the refusal; what a zero claim leaves is one run, under 10. Refuses with 5, then with 6 for `out`, then with 6 for `runs`.
/// The upload is walked before a byte is written, so a refusal leaves both as they were.
pub fn salvage<'a, E: Accepts<'a>>(
    bytes: &'a [u8],
    mode: Mode,
    out: &mut [u8],
    runs: &mut [u32],
) -> Result<Salvaged, Refusal>
    ensures { WritesBoth (salvaging (E.read mode) bytes.entry) out.old runs.old out.new runs.new result }
{
    let length = bytes.len();
    if length > LIMIT {
        return Err(Refusal::TooLarge { length });
    }
    let needed = measure::<Accepted<E>>(bytes, mode);
    let lent = out.len();
    if lent < needed.bytes {
        return Err(Refusal::OutputTooSmall {
            needed: needed.bytes,
            lent,
        });
    }
    let free = runs.len();
    if free < needed.slots {
        return Err(Refusal::OutputTooSmall {
            needed: needed.slots,
            lent: free,
        });
    }
    write::<Accepted<E>>(bytes, mode, out, runs);
    Ok(needed)
}

// The theorems. Each is the contract of a function that does nothing, so that none goes unnoticed if its proof does.

/// Two answers that the promise of `salvage` allows are equal, and so is what they leave in both buffers.
pub fn one_writing_both()
    ensures { OneWritingBoth }
{}

/// Each piece is kept or listed, and the pieces, one after another, are the upload.
pub fn pieces_cover<'a, E: Entry<'a>>()
    ensures { (mode : Mode) → Covers (E.read mode) }
{}

/// A kind of entry with what its records tell, and with the numbers of its steps' refusals.
pub trait Salvageable<'a> {
    type Record: Entry<'a>;

    // all that a record tells: no part of where it stands
    ghost Told: { Type 0 };

    ghost told: { Self.Record → Told };

    // the numbers that a step within an upload of no more than the limit is refused with, in a mode
    ghost Reason: { Mode → ℕ → Type 0 };

    // an entry tells the same wherever it lies
    ghost alike: { (mode : Mode) (e f : Bor (List ℕ)) → e.now ≡ f.now → map_ok told (Self.Record.read mode e) ≡ map_ok told (Self.Record.read mode f) };

    // no room for a claim, and less than is claimed
    ghost short: { (mode : Mode) → Reason mode 2 };

    ghost beyond: { (mode : Mode) → Reason mode 3 };

    ghost own: { (mode : Mode) (e : Bor (List ℕ)) (why : Refusal) → Self.Record.read mode e ≡ Err why → Reason mode (figures_of why).number };
}

/// What a salvage wrote covers the upload, each entry kept and the rest listed; the walk over it tells the same records, and a second salvage drops nothing.
pub fn salvage_meant<'a, K: Salvageable<'a>>()
    ensures { (mode : Mode) → SalvageMeant (K.Record.read mode) K.Record.length_of K.told (K.Reason mode) }
{}

/// There is one cover of an upload from a place: it decides what is kept and what is listed.
pub fn cover_once<'a, K: Salvageable<'a>>()
    ensures { (mode : Mode) → CoverOnce (K.Record.read mode) K.Record.length_of K.told (K.Reason mode) }
{}

//! Entries that are written, one after another and each grown at its end, come back from the walk: nothing to run, but that theorem, and which steps it shuts out.
#![tactic(auto)]

ghost use Rattle.std.specs.Prelude.{◌≡◌, ◌≤◌, ℕ, List, length};
ghost use Rattle.std.specs.Borrow.{Bor};
ghost use Rattle.refusal.specs.Refusal.{limit};
ghost use Rattle.refusal.specs.declared.Mode.{Mode};
ghost use Rattle.walk.specs.Step.{step_at};
ghost use Rattle.walk.specs.Theorems.{cursor_of};
ghost use Rattle.regrown.specs.Regrown.{grown, Grown, entry_of, ComeBack};
ghost use Rattle.regrown.specs.ShutsOut.{ShutsOut};
ghost use Rattle.regrown.specs.Tells.{tells, ReadsBack};

use walk::Entry;

/// A kind of entry that has a writer. Fit records are those of which the walk is to give back what was written.
pub trait Fits<'a> {
    type Record: Entry<'a>;

    // what the writer is given
    ghost Parts: { Type 0 };

    // all that a record tells: no part of where it stands
    ghost Told: { Type 0 };

    ghost Fit: { Parts → Type 0 };

    ghost written: { Parts → List ℕ };

    // what is meant by what is written, in an entry that is grown by some bytes
    ghost meant: { Parts → List ℕ → Told };

    ghost told: { Self.Record → Told };

    // a fit record's entry, grown by any bytes at its end and wherever it lies, is read as what was meant
    ghost reads_back: { (mode : Mode) (p : Parts) (extra : List ℕ) (e : Bor (List ℕ)) → Fit p → e.now ≡ grown (written p) extra → length e.now ≤ limit → ReadsBack (Self.Record.read mode) told e (meant p extra) };
}

/// Fit records, written one after another, each grown at its end, come back from the walk, whole and cut anywhere, within the limit.
pub fn come_back<'a, K: Fits<'a>>()
    ensures { (mode : Mode) → ComeBack K.Fit K.written K.meant (step_at (K.Record.read mode)) cursor_of (tells K.Record.length_of K.told) }
{}

/// Where there is a fit record, whose entry is within the limit, a step that never gives a record, and one that gives a record
/// wherever it is asked, do not meet it.
pub fn shuts_out<'a, K: Fits<'a>>()
    ensures { (g : Grown K.Fit) → length (entry_of K.Fit K.written g) ≤ limit → ShutsOut K.Fit K.written K.meant cursor_of (tells K.Record.length_of K.told) }
{}

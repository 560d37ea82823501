//! One bad entry stays one bad entry: where two uploads differ inside some entries alone, all else that is read of them is the same. Nothing to run, but its theorems. docs/FORMAT.md, "One bad entry".
#![tactic(auto)]

ghost use Rattle.std.specs.Prelude.{◌≡◌, ℕ, List};
ghost use Rattle.std.specs.Borrow.{Bor};
ghost use Rattle.refusal.specs.declared.Mode.{Mode};
ghost use Rattle.walk.specs.Mapped.{map_ok};
ghost use Rattle.damage.specs.Salvaged.{SalvageWrites};
ghost use Rattle.damage.specs.Theorems.{StaysInPlace, StaysAnywhere};
ghost use Rattle.damage.specs.ShutsOut.{DamageShutsOut};

use walk::Entry;

/// A kind of entry with what its records tell.
pub trait Telling<'a> {
    type Record: Entry<'a>;

    // all that a record tells: no part of where it stands
    ghost Told: { Type 0 };

    ghost told: { Self.Record → Told };

    // an entry tells the same wherever it lies
    ghost alike: { (mode : Mode) (e f : Bor (List ℕ)) → e.now ≡ f.now → map_ok told (Self.Record.read mode e) ≡ map_ok told (Self.Record.read mode f) };
}

// The theorems. Each is the contract of a function that does nothing, so that none goes unnoticed if its proof does.

/// What a salvage writes is the entries that it keeps, one after another, and the runs that it drops.
pub fn salvage_writes<'a, E: Entry<'a>>()
    ensures { (mode : Mode) → SalvageWrites (E.read mode) }
{}

/// Where the two uploads lie in the same place in memory, as before a damage and after it, all that is given of other entries is the same.
pub fn stays_in_place<'a, E: Entry<'a>>()
    ensures { (mode : Mode) → StaysInPlace E.HEADER (E.read mode) }
{}

/// Wherever the two uploads lie, all that is told of other entries is the same.
pub fn stays_anywhere<'a, K: Telling<'a>>()
    ensures { (mode : Mode) → StaysAnywhere K.Record.HEADER (K.Record.read mode) K.Record.length_of K.told }
{}

/// A walk that ends at a refused entry, a step and a direct parse that look past their entry, and a salvage that drops what follows upon what it drops, are not what these theorems allow.
pub fn damage_shuts_out()
    ensures { DamageShutsOut }
{}

//! Kinds of entry that have a name, and where it stands (docs/FORMAT.md, "Finding").
#![tactic(auto)]

ghost use Rattle.std.specs.Prelude.{◌≡◌, ◌≤◌, ℕ, List, Ok};
ghost use Rattle.std.specs.Borrow.{Bor};
ghost use Rattle.refusal.specs.declared.Mode.{Mode};
ghost use Rattle.name_order.specs.declared.places.NamePlaces.{NamePlaces};
ghost use Rattle.named.specs.Named.{TellsName};

pub mod kinds;

use name_order::NamePlaces;
use walk::Accepts;

/// A kind of entry that has a name.
pub trait Named<'a>: Accepts<'a> {
    ghost places: { NamePlaces };

    // the name, as the record carries it
    ghost name_of: { Self → List ℕ };

    fn places() -> NamePlaces
        ensures { result ≡ places };

    ghost told: { (mode : Mode) (e : Bor (List ℕ)) (r : Self) → Self.read mode e ≡ Ok r → TellsName places e.now (name_of r) };

    // none has a header shorter than a symbol's
    ghost shortest: { 30 ≤ Self.HEADER };
}

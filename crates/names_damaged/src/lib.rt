//! A name that no damaged entry has is found alike, of any kind of entry that has a name. Nothing to run, but its theorem. docs/FORMAT.md, "One bad entry".
#![tactic(auto)]

ghost use Rattle.name_find.specs.Find.{find, find_indexed};
ghost use Rattle.name_index.specs.Index.{Halves};
ghost use Rattle.names_damaged.specs.Finding.{FindingStays};

use damage::Telling;
use named::Named;

// The theorem is the contract of a function that does nothing, so that it does not go unnoticed if its proof does.

/// A name that no damaged entry has is found or refused alike: without an index, through each upload's own and that of the other, and by halving through each upload's own name index. By halving through that of the other an entry of that name is found, or 13 is answered, and the same where the slots are in order there too.
pub fn finding_stays<'a, K: Telling<'a>>()
where
    K::Record: Named<'a>,
    ensures { FindingStays K.Record.HEADER K.Record.places K.Record.read K.Record.length_of K.Record.name_of K.told (λ mode. find K.Record.name_of (K.Record.read mode)) (λ mode. find_indexed K.Record.name_of (K.Record.read mode)) (λ mode. Halves K.Record.places (K.Record.read mode) K.Record.name_of) }
{}

//! One bad symbol stays one bad symbol: what is read, salvaged, indexed, found and listed of the others. Nothing to run, but its theorems. docs/FORMAT.md, "One bad entry".
#![tactic(auto)]

ghost use Rattle.refusal.specs.declared.Mode.{Mode};
ghost use Rattle.damage.specs.Theorems.{StaysInPlace, StaysAnywhere};
ghost use Rattle.symbol.specs.Symbol.{symbol_of};
ghost use Rattle.symbol.specs.Told.{Told, told_of};
ghost use Rattle.symbol.proofs.Anywhere.{symbols_anywhere};
ghost use Rattle.named.specs.Kinds.{symbol_places};
ghost use Rattle.symbol_find.specs.Find.{own_name, find, find_indexed};
ghost use Rattle.name_index.specs.Index.{Halves};
ghost use Rattle.symbols_damaged.specs.Finding.{FindingStays, AttributesStay};
ghost use Rattle.symbols_damaged.specs.Listed.{rows_of, ListingStays, ListedByRows};
ghost use Rattle.symbols_damaged.specs.ShutsOut.{SymbolsShutOut};

use damage::Telling;
use symbol::AdsSymbolInfo;

/// Symbols, with what they tell.
pub struct TellingSymbols;

impl<'a> Telling<'a> for TellingSymbols {
    type Record = AdsSymbolInfo<'a>;

    ghost Told = { Told };

    ghost told = { told_of };

    ghost alike = { symbols_anywhere };
}

// The theorems. Each is the contract of a function that does nothing, so that none goes unnoticed if its proof does.

/// Where the two uploads lie in the same place in memory, all that is given of other symbols is the same.
pub fn symbols_in_place()
    ensures { (mode : Mode) → StaysInPlace 30 (symbol_of mode) }
{
    damage::stays_in_place::<AdsSymbolInfo>()
}

/// Wherever the two uploads lie, all that is told of other symbols is the same.
pub fn symbols_anywhere()
    ensures { (mode : Mode) → StaysAnywhere 30 (symbol_of mode) (λ r. r.length) told_of }
{
    damage::stays_anywhere::<TellingSymbols>()
}

/// A name that no damaged entry has is found or refused alike: without an index, through each upload's own and that of the other, and by halving through each upload's own name index. By halving through that of the other a symbol of that name is found, or 13 is answered, and the same where the slots are in order there too.
pub fn finding_stays()
    ensures { FindingStays find find_indexed (λ mode. Halves symbol_places (symbol_of mode) own_name) }
{
    names_damaged::finding_stays::<TellingSymbols>()
}

/// Of every other symbol the attribute of any name tells the same.
pub fn attributes_stay()
    ensures { AttributesStay }
{}

/// A listing has as many rows, and all but those of damaged entries are the same text.
pub fn listing_stays()
    ensures { ListingStays rows_of }
{}

/// What is listed of a line that spells an upload is these rows, and no other line's text depends on them.
pub fn listed_by_rows()
    ensures { ListedByRows }
{}

/// Finding that ends at a refused entry, halving that answers the slot where it ends without a look at the name there, and a listing whose line number is told by entry, are not what these theorems allow.
pub fn symbols_shut_out()
    ensures { SymbolsShutOut }
{}

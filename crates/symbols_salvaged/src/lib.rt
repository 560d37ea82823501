//! A salvage of symbols: nothing to run, but what it means. docs/FORMAT.md, "Salvage".
#![tactic(auto)]

ghost use Rattle.refusal.specs.declared.Mode.{Mode};
ghost use Rattle.salvage.specs.Meaning.{SalvageMeant, CoverOnce};
ghost use Rattle.symbol.specs.Symbol.{symbol_of};
ghost use Rattle.symbol.specs.Told.{Told, told_of};
ghost use Rattle.symbols_salvaged.specs.Kind.{Reason, too_short, mismatch, alike, own};

use salvage::Salvageable;
use symbol::AdsSymbolInfo;

/// Symbols, of which an upload is salvaged.
pub struct SalvagedSymbols;

impl<'a> Salvageable<'a> for SalvagedSymbols {
    type Record = AdsSymbolInfo<'a>;

    ghost Told = { Told };

    ghost told = { told_of };

    ghost Reason = { Reason };

    ghost alike = { alike };

    ghost short = { λ mode. too_short };

    ghost beyond = { λ mode. mismatch };

    ghost own = { own };
}

// The theorems. Each is the contract of a function that does nothing, so that none goes unnoticed if its proof does.

/// What a salvage of symbols wrote covers the upload, each entry kept and the rest listed, under 2, 3, 10, or in the checked
/// mode 16; the walk over it tells the same symbols, and a second salvage drops nothing.
pub fn symbols_salvaged()
    ensures { (mode : Mode) → SalvageMeant (symbol_of mode) (λ r. r.length) told_of (Reason mode) }
{
    salvage::salvage_meant::<SalvagedSymbols>()
}

/// There is one cover of an upload of symbols from a place.
pub fn symbols_covered_once()
    ensures { (mode : Mode) → CoverOnce (symbol_of mode) (λ r. r.length) told_of (Reason mode) }
{
    salvage::cover_once::<SalvagedSymbols>()
}

//! What the symbol writer writes comes back from the walk: nothing to run, but that theorem and those around it. docs/FORMAT.md, "Fit records".
#![tactic(auto)]

ghost use Rattle.refusal.specs.declared.Mode.{Mode};
ghost use Rattle.walk.specs.Step.{step_at};
ghost use Rattle.walk.specs.Theorems.{cursor_of};
ghost use Rattle.regrown.specs.Regrown.{ComeBack};
ghost use Rattle.regrown.specs.Tells.{tells};
ghost use Rattle.symbol.specs.declared.writer.NewSymbol.{NewSymbol};
ghost use Rattle.symbol.specs.Symbol.{symbol_of};
ghost use Rattle.symbol.specs.Told.{Told, told_of, meant};
ghost use Rattle.symbol.specs.Writing.{symbol_bytes};
ghost use Rattle.symbols_regrown.specs.Kind.{IsFit, reads_back};
ghost use Rattle.symbols_regrown.specs.Theorems.{SymbolsShutOut, WrittenSymbolsFit, SymbolsByName, SymbolsFaithful};

use regrown::Fits;
use symbol::AdsSymbolInfo;

/// The symbols that the writer accepts.
pub struct WrittenSymbols;

impl<'a> Fits<'a> for WrittenSymbols {
    type Record = AdsSymbolInfo<'a>;

    ghost Parts = { NewSymbol };

    ghost Told = { Told };

    ghost Fit = { IsFit };

    ghost written = { symbol_bytes };

    ghost meant = { meant };

    ghost told = { told_of };

    ghost reads_back = { reads_back };
}

// The theorems. Each is the contract of a function that does nothing, so that none goes unnoticed if its proof does.

/// Fit symbols, written one after another, each entry grown by any bytes at its end, come back from the walk, whole and cut anywhere, within the limit.
pub fn symbols_come_back()
    ensures { (mode : Mode) → ComeBack IsFit symbol_bytes meant (step_at (symbol_of mode)) cursor_of (tells (λ r. r.length) told_of) }
{
    regrown::come_back::<WrittenSymbols>()
}

/// A step that never gives a record, and one that gives a record wherever it is asked, do not meet it.
pub fn symbols_shut_out()
    ensures { SymbolsShutOut }
{}

/// Where the symbol writer answers that it wrote so many bytes, the symbol is fit, and these are the bytes that come back.
pub fn written_symbols_fit()
    ensures { WrittenSymbolsFit }
{}

/// What was written under an attribute's name is told for that name, of two alike the first; where none has it, 13.
pub fn symbols_by_name()
    ensures { SymbolsByName }
{}

/// Two fit symbols that mean the same, their chains blocks of bytes, are written as the same bytes.
pub fn symbols_faithful()
    ensures { SymbolsFaithful }
{}

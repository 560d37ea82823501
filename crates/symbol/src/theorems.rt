//! Theorems. Each is the contract of a function that does nothing, so that none goes unnoticed if its proof does.
ghost use Rattle.symbol.specs.Laws.{SymbolsWhole};
ghost use Rattle.symbol.specs.Inside.{SymbolsInside};
ghost use Rattle.symbol.specs.Modes.{SymbolsModes};
ghost use Rattle.symbol.specs.Told.{IsTyped, SymbolsAnywhere};
ghost use Rattle.symbol.specs.Writable.{HoldsBytes, SymbolsWritten};
ghost use Rattle.symbol.specs.Barred.{SymbolsBarred};
ghost use Rattle.symbol.specs.ReadOn.{SymbolsReadOn};
ghost use Rattle.symbol.specs.ReadBack.{SymbolsReadBack, SymbolsGivenBack};
ghost use Rattle.symbol.specs.Again.{SymbolsCut, SymbolsAgain};

use crate::NewSymbol;

/// A symbol that is accepted has room for its strings and lists, and shows as many attributes and refactor records as it counts:
/// none of these is refused by its number.
pub fn symbols_whole()
    ensures { SymbolsWhole }
{}

/// Every number of a symbol stands at its place in the header, and every part lies in the entry, in layout order, each string with
/// its end byte.
pub fn symbols_inside()
    ensures { SymbolsInside }
{}

/// The checked mode accepts what the present mode accepts where 0 follows every string that is met, and reads it alike; what
/// the present mode refuses it refuses alike, and anything else by the first end byte that is not 0.
pub fn symbols_modes()
    ensures { SymbolsModes }
{}

/// What the theorems ask of the numbers of a symbol that is written, and of its GUID, every `NewSymbol` has.
pub fn symbols_typed(symbol: NewSymbol<'_>)
    ensures { IsTyped symbol.entry }
{}

/// And of a block that is written every slice that is lent has: it holds bytes.
pub fn blocks_typed(block: &[u8])
    ensures { HoldsBytes block.now }
{}

/// What a symbol tells is told by its bytes, wherever they lie.
pub fn symbols_anywhere()
    ensures { SymbolsAnywhere }
{}

/// A symbol is written exactly where its strings and its count fit their fields, its blocks are so many attributes and refactor
/// records that can be written, each section agrees with the flags, and the entry is within the limit.
pub fn symbols_written()
    ensures { SymbolsWritten }
{}

/// A symbol is refused by a number and figures exactly where this is the first of the checks that fails.
pub fn symbols_barred()
    ensures { SymbolsBarred }
{}

/// No section refuses an entry: in the present mode it is read where its strings are there; where they are not, it is refused with 2
/// or 3 and its figures in either mode. A refused attribute ends the list, a
/// chain that meets a refused record is dropped whole, and reading goes on where the section ends.
pub fn symbols_read_on()
    ensures { SymbolsReadOn }
{}

/// A symbol that is written, its entry grown by any bytes at its end, is read in either mode as what was meant.
pub fn symbols_read_back()
    ensures { SymbolsReadBack }
{}

/// A symbol to write of one that was read has as its blocks the bytes of the attributes and refactor records that are shown.
pub fn symbols_cut()
    ensures { SymbolsCut }
{}

/// Of a symbol to write of one that was read every number and string is the record's, each count that of what is shown, and the word
/// of extended flags the one that stands there, also where its chain is dropped, and 0 where there is none.
pub fn symbols_again()
    ensures { SymbolsAgain }
{}

/// A symbol that is written, its entry grown by any bytes at its end, read in either mode and written again, is the symbol that was given.
pub fn symbols_given_back()
    ensures { SymbolsGivenBack }
{}

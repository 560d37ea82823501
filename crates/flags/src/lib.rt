//! Flag words and the two parts of an address, each a kind of its own over its number.
#![tactic(auto, unfolding(crate::specs::Flags::symbol_flags_of, crate::specs::Flags::symbol2_flags_of, crate::specs::Flags::type_flags_of))]

ghost use Rattle.std.specs.Prelude.{◌≡◌};
ghost use Rattle.flags.specs.RoundTrip.{WordsComeBack};
ghost use Rattle.flags.specs.WordsRead.{WordsRead};
ghost use Rattle.flags.specs.SymbolBits.{SymbolBits};
ghost use Rattle.flags.specs.ExtendedBits.{ExtendedBits};
ghost use Rattle.flags.specs.TypeBits.{TypeBits};
ghost use Rattle.le.specs.Le.{bytes4};

pub mod index_group;
pub mod index_offset;
pub mod symbol_flags;
pub mod type_flags;

pub(crate) fn bytes_of_u32(x: u32) -> [u8; 4]
    ensures { result ≡ bytes4 x }
{
    let a = (x % 256) as u8;
    let b = (x / 256 % 256) as u8;
    let c = (x / 256 / 256 % 256) as u8;
    let d = (x / 256 / 256 / 256 % 256) as u8;
    [a, b, c, d]
}

// Theorems. Each is the contract of a function that does nothing, so that none goes unnoticed if its proof does.

/// A word's own bytes are read back as that word, with every bit kept.
pub fn words_come_back()
    ensures { WordsComeBack }
{}

/// Each flag of the three words has the value that the maker's header gives it.
pub fn flags_named()
    ensures symbol { SymbolBits }
    ensures extended { ExtendedBits }
    ensures field { TypeBits }
{}

/// A flag word that is read alone is 5 above the limit, then 1 at another length than its own, and else the number in its bytes.
pub fn words_read()
    ensures { WordsRead }
{}

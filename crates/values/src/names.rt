//! Flags by name: those of crate flags.
ghost use Rattle.std.specs.Prelude.{◌≡◌, Some};
ghost use Rattle.values.specs.Names.{context_text, extended_bits_text, extended_text, flags_text, four_digits, named_text, nameless_text, symbol_bits_text};

use bitflags::Flags;
use flags::symbol_flags::{AdsSymbol2Flags, AdsSymbolFlags};
use std::fmt;
use wording::Pair;

/// A number in four hexadecimal digits, in capitals.
#[derive(Clone, Copy)]
pub struct FourDigits(pub u16);

impl fmt::Display for FourDigits {
    ghost output = { λ n. Some (four_digits n.0) };

    #[tactic(auto, unfolding(crate::specs::Names::four_digits))]
    fn fmt<W: fmt::Write>(&self, f: &mut fmt::Formatter<W>) -> fmt::Result {
        let high = Pair((self.0 / 256) as u8);
        let low = Pair((self.0 % 256) as u8);
        write!(f, "{high}{low}")
    }
}

/// A symbol's flags: the word, the names of the bits that are set, and the context's number.
#[derive(Clone, Copy)]
pub struct FlagNames(pub AdsSymbolFlags);

impl fmt::Display for FlagNames {
    ghost output = { λ n. Some (flags_text n.0.0) };

    #[tactic(auto, unfolding(crate::specs::Names::flags_text))]
    fn fmt<W: fmt::Write>(&self, f: &mut fmt::Formatter<W>) -> fmt::Result {
        let word = self.0.0;
        let digits = FourDigits(word);
        if word == 0 {
            return write!(f, "0x{digits}, none");
        }
        let context = word / 256 % 16;
        let names = SymbolBits(word - context * 256);
        let context = Context(context);
        write!(f, "0x{digits}{names}{context}")
    }
}

/// The extended flags, likewise, and which bits have no name.
#[derive(Clone, Copy)]
pub struct ExtendedNames(pub AdsSymbol2Flags);

impl fmt::Display for ExtendedNames {
    ghost output = { λ n. Some (extended_text n.0.0) };

    #[tactic(auto, unfolding(crate::specs::Names::extended_text))]
    fn fmt<W: fmt::Write>(&self, f: &mut fmt::Formatter<W>) -> fmt::Result {
        let word = self.0.0;
        let high = FourDigits((word / 65536) as u16);
        let low = FourDigits((word % 65536) as u16);
        if word == 0 {
            return write!(f, "0x{high}{low}, none");
        }
        let names = ExtendedBits(word);
        let nameless = Nameless(word - (word & named_bits()));
        write!(f, "0x{high}{low}{names}{nameless}")
    }
}

// The bits that have a name among the extended flags.
fn named_bits() -> u32
    ensures { result ≡ 0x1F }
{
    AdsSymbol2Flags::all().0
}

// The names of the bits that are set in a word without its context.
#[derive(Clone, Copy)]
struct SymbolBits(u16);

impl fmt::Display for SymbolBits {
    ghost output = { λ n. Some (symbol_bits_text n.0) };

    fn fmt<W: fmt::Write>(&self, f: &mut fmt::Formatter<W>) -> fmt::Result {
        for flag in AdsSymbolFlags::flags() {
            let named = Named {
                name: flag.name,
                set: u32::from(self.0 & flag.value.0),
            };
            write!(f, "{named}")?;
        }
        Ok(())
    }
}

// The names of the bits that are set among the extended flags.
#[derive(Clone, Copy)]
struct ExtendedBits(u32);

impl fmt::Display for ExtendedBits {
    ghost output = { λ n. Some (extended_bits_text n.0) };

    fn fmt<W: fmt::Write>(&self, f: &mut fmt::Formatter<W>) -> fmt::Result {
        for flag in AdsSymbol2Flags::flags() {
            let named = Named {
                name: flag.name,
                set: self.0 & flag.value.0,
            };
            write!(f, "{named}")?;
        }
        Ok(())
    }
}

// The name of a flag of which these bits are set, if there are any.
#[derive(Clone, Copy)]
struct Named<'a> {
    name: &'a str,
    set: u32,
}

impl fmt::Display for Named<'_> {
    ghost output = { λ n. Some (named_text n.name.now n.set) };

    fn fmt<W: fmt::Write>(&self, f: &mut fmt::Formatter<W>) -> fmt::Result {
        if self.set == 0 {
            return Ok(());
        }
        let name = self.name;
        write!(f, ", {name}")
    }
}

// The bits that have no name, if there are any.
#[derive(Clone, Copy)]
struct Nameless(u32);

impl fmt::Display for Nameless {
    ghost output = { λ n. Some (nameless_text n.0) };

    #[tactic(auto, unfolding(crate::specs::Names::nameless_text))]
    fn fmt<W: fmt::Write>(&self, f: &mut fmt::Formatter<W>) -> fmt::Result {
        let rest = self.0;
        if rest == 0 {
            return Ok(());
        }
        write!(f, ", and 0x{rest:X}, which has no name")
    }
}

// The number of a context, if there is one.
#[derive(Clone, Copy)]
struct Context(u16);

impl fmt::Display for Context {
    ghost output = { λ n. Some (context_text n.0) };

    #[tactic(auto, unfolding(crate::specs::Names::context_text))]
    fn fmt<W: fmt::Write>(&self, f: &mut fmt::Formatter<W>) -> fmt::Result {
        let number = self.0;
        if number == 0 {
            return Ok(());
        }
        write!(f, ", context {number}")
    }
}

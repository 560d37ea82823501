//! What the parts of a symbol's entry tell, for people and in JSON (docs/FORMAT.md, "The command's text").
#![tactic(auto, unfolding(crate::specs::Values::value_of))]

ghost use Rattle.std.specs.Prelude.{◌≡◌};
ghost use Rattle.values.specs.Alike.{are_refused_alike, tells_the_same};
ghost use Rattle.values.specs.Values.{attribute_in, count_value, extended_value, former_name_in, guid_value, value_of};

mod names;
mod shown;
pub mod theorems;

use attribute::AdsAttribute;
use flags::symbol_flags::{AdsSymbol2Flags, AdsSymbolFlags};
pub use names::{ExtendedNames, FlagNames, FourDigits};
use refusal::Refusal;
use sections::{Part, Section};
pub use shown::{AsJson, AsText, FormerName, NameAndValue, OrNone};
use symbol::AdsSymbolInfo;

/// What a part tells.
#[derive(Clone, Copy, Debug)]
pub enum Value<'a> {
    /// Nothing: the part is not there.
    Absent,
    /// So many bytes.
    Bytes(usize),
    /// A number.
    Number(u32),
    /// A number that people read in hexadecimal.
    Hexadecimal(u32),
    /// The two bytes after the flags.
    High(u16),
    /// A symbol's flags.
    Flags(AdsSymbolFlags),
    /// Its extended flags.
    ExtendedFlags(AdsSymbol2Flags),
    /// A string in Windows-1252.
    Text(&'a [u8]),
    /// The GUID of a type.
    Guid([u8; 16]),
    /// An attribute, with its name and its value.
    Attribute(AdsAttribute<'a>),
    /// A former name, which may be empty.
    FormerName(&'a [u8]),
    /// Why there is no entry.
    Refused(Refusal),
    /// One byte of an entry, where nothing else tells two parts apart.
    Byte { at: usize, byte: u8 },
}

impl Value<'_> {
    /// Whether two tell the same: what they tell is of one kind, and alike in its numbers and in the bytes of its strings, wherever these lie.
    #[tactic(auto, unfolding(crate::specs::Alike::tells_the_same))]
    pub fn tells_the_same(self, other: Value<'_>) -> bool
        ensures { result ≡ tells_the_same self.entry other.entry }
    {
        match (self, other) {
            (Value::Absent, Value::Absent) => true,
            (Value::Bytes(one), Value::Bytes(other)) => one == other,
            (Value::Number(one), Value::Number(other)) => one == other,
            (Value::Hexadecimal(one), Value::Hexadecimal(other)) => one == other,
            (Value::High(one), Value::High(other)) => one == other,
            (Value::Flags(one), Value::Flags(other)) => one.0 == other.0,
            (Value::ExtendedFlags(one), Value::ExtendedFlags(other)) => one.0 == other.0,
            (Value::Text(one), Value::Text(other)) => one == other,
            (Value::Guid(one), Value::Guid(other)) => one == other,
            (Value::Attribute(one), Value::Attribute(other)) => {
                one.name == other.name && one.value == other.value
            }
            (Value::FormerName(one), Value::FormerName(other)) => one == other,
            (Value::Refused(one), Value::Refused(other)) => are_refused_alike(one, other),
            (
                Value::Byte { at, byte },
                Value::Byte {
                    at: to,
                    byte: other,
                },
            ) => { at == to && byte == other }
            _ => false,
        }
    }
}

/// Whether two refusals are the same: of one number, with the same figures.
pub fn are_refused_alike(one: Refusal, other: Refusal) -> bool
    ensures { result ≡ are_refused_alike one other }
{
    let one = one.figures();
    let other = other.figures();
    one.number == other.number && one.expected == other.expected && one.got == other.got
}

/// What a section of a symbol's entry tells (docs/FORMAT.md, "The command's text", of `compare`).
pub fn value_of<'a>(symbol: &AdsSymbolInfo<'a>, section: &Section<'a>) -> Value<'a>
    ensures { result ≡ value_of symbol.now section.now.part section.now.bytes }
{
    match section.part {
        Part::Length => Value::Bytes(symbol.length),
        Part::Group => Value::Hexadecimal(symbol.index_group.0),
        Part::Offset => Value::Hexadecimal(symbol.index_offset.0),
        Part::Size => Value::Bytes(symbol.size as usize),
        Part::TypeId => Value::Number(symbol.data_type_id),
        Part::Flags => Value::Flags(symbol.flags),
        Part::High => Value::High(symbol.high),
        Part::StringLengths | Part::Unread => Value::Bytes(section.bytes.len()),
        Part::Name => Value::Text(symbol.name),
        Part::Type => Value::Text(symbol.type_name),
        Part::Comment => Value::Text(symbol.comment),
        Part::Guid => guid(symbol.guid),
        Part::AttributeCount => count(symbol.attributes.count),
        Part::Attribute(_) => attribute_in(section.bytes),
        Part::ExtendedFlags => extended(symbol.extended_flags),
        Part::FormerName(_) => former_name_in(section.bytes),
    }
}

fn guid<'a>(id: Option<[u8; 16]>) -> Value<'a>
    ensures { result ≡ guid_value id }
{
    match id {
        Some(id) => Value::Guid(id),
        None => Value::Absent,
    }
}

// As many as are shown: 65,535 at most.
fn count<'a>(number: usize) -> Value<'a>
    ensures { result ≡ count_value number }
{
    Value::Number(number.min(u32::MAX as usize) as u32)
}

fn extended<'a>(flags: Option<AdsSymbol2Flags>) -> Value<'a>
    ensures { result ≡ extended_value flags }
{
    match flags {
        Some(flags) => Value::ExtendedFlags(flags),
        None => Value::Absent,
    }
}

// Read by itself, and not by its number: an entry can have thousands.
fn attribute_in(bytes: &[u8]) -> Value<'_>
    ensures { result ≡ attribute_in bytes.entry }
{
    match attribute::first(bytes) {
        Ok((one, _)) => Value::Attribute(one),
        Err(_) => Value::Absent,
    }
}

fn former_name_in(bytes: &[u8]) -> Value<'_>
    ensures { result ≡ former_name_in bytes.entry }
{
    match refactor::first(bytes) {
        Ok((one, _)) => Value::FormerName(one.name),
        Err(_) => Value::Absent,
    }
}

//! Values as they are written, for people and in JSON.
ghost use Rattle.std.specs.Prelude.{Some};
ghost use Rattle.values.specs.Names.{former_text, or_none};
ghost use Rattle.values.specs.Shown.{name_and_value, value_json, value_text};

use crate::{ExtendedNames, FlagNames, FourDigits, Value};
use attribute::AdsAttribute;
use report::json::Guid;
use std::fmt;
use wording::strings::{Quoted, Shown};
use wording::{Bytes, InWords, Pair};

/// Text, and that there is none where it is empty.
#[derive(Clone, Copy)]
pub struct OrNone<'a>(pub &'a [u8]);

impl fmt::Display for OrNone<'_> {
    ghost output = { λ s. Some (or_none s.0.now) };

    #[tactic(auto, unfolding(crate::specs::Names::or_none))]
    fn fmt<W: fmt::Write>(&self, f: &mut fmt::Formatter<W>) -> fmt::Result {
        if self.0.is_empty() {
            return write!(f, "none");
        }
        let text = Shown(self.0);
        write!(f, "{text}")
    }
}

/// A former name, and that it is empty.
#[derive(Clone, Copy)]
pub struct FormerName<'a>(pub &'a [u8]);

impl fmt::Display for FormerName<'_> {
    ghost output = { λ s. Some (former_text s.0.now) };

    #[tactic(auto, unfolding(crate::specs::Names::former_text))]
    fn fmt<W: fmt::Write>(&self, f: &mut fmt::Formatter<W>) -> fmt::Result {
        if self.0.is_empty() {
            return write!(f, "(no name)");
        }
        let text = Shown(self.0);
        write!(f, "{text}")
    }
}

/// An attribute in one line.
#[derive(Clone, Copy)]
pub struct NameAndValue<'a>(pub AdsAttribute<'a>);

impl fmt::Display for NameAndValue<'_> {
    ghost output = { λ a. Some (name_and_value a.0) };

    fn fmt<W: fmt::Write>(&self, f: &mut fmt::Formatter<W>) -> fmt::Result {
        let name = Shown(self.0.name);
        let value = Shown(self.0.value);
        write!(f, "{name} = {value}")
    }
}

/// A value for people.
#[derive(Clone, Copy)]
pub struct AsText<'a>(pub Value<'a>);

impl fmt::Display for AsText<'_> {
    ghost output = { λ v. Some (value_text v.0) };

    #[tactic(auto, unfolding(crate::specs::Shown::value_text))]
    fn fmt<W: fmt::Write>(&self, f: &mut fmt::Formatter<W>) -> fmt::Result {
        match self.0 {
            Value::Absent => write!(f, "none"),
            Value::Bytes(number) => Bytes(number).fmt(f),
            Value::Number(number) => write!(f, "{number}"),
            Value::Hexadecimal(number) => write!(f, "0x{number:X}"),
            Value::High(high) => {
                let high = FourDigits(high);
                write!(f, "0x{high}")
            }
            Value::Flags(flags) => FlagNames(flags).fmt(f),
            Value::ExtendedFlags(flags) => ExtendedNames(flags).fmt(f),
            Value::Text(text) => OrNone(text).fmt(f),
            Value::Guid(id) => Guid(&id).fmt(f),
            Value::Attribute(one) => NameAndValue(one).fmt(f),
            Value::FormerName(name) => FormerName(name).fmt(f),
            Value::Refused(why) => InWords(&why).fmt(f),
            Value::Byte { at, byte } => {
                let byte = Pair(byte);
                write!(f, "byte {at} of the entry is 0x{byte}")
            }
        }
    }
}

/// A value in JSON.
#[derive(Clone, Copy)]
pub struct AsJson<'a>(pub Value<'a>);

impl fmt::Display for AsJson<'_> {
    ghost output = { λ v. Some (value_json v.0) };

    #[tactic(auto, unfolding(crate::specs::Shown::value_json))]
    fn fmt<W: fmt::Write>(&self, f: &mut fmt::Formatter<W>) -> fmt::Result {
        match self.0 {
            Value::Absent => write!(f, "null"),
            Value::Bytes(number) => write!(f, "{number}"),
            Value::Number(number) => write!(f, "{number}"),
            Value::Hexadecimal(number) => write!(f, "{number}"),
            Value::High(high) => write!(f, "{high}"),
            Value::Flags(flags) => {
                let word = flags.0;
                write!(f, "{word}")
            }
            Value::ExtendedFlags(flags) => {
                let word = flags.0;
                write!(f, "{word}")
            }
            Value::Text(text) => Quoted(text).fmt(f),
            Value::Guid(id) => {
                let id = Guid(&id);
                write!(f, "\"{id}\"")
            }
            Value::Attribute(one) => {
                let name = Quoted(one.name);
                let value = Quoted(one.value);
                write!(f, "{{\"name\":{name},\"value\":{value}}}")
            }
            Value::FormerName(name) => Quoted(name).fmt(f),
            Value::Refused(why) => {
                let why = InWords(&why);
                write!(f, "\"{why}\"")
            }
            Value::Byte { at, byte } => write!(f, "{{\"byte\":{at},\"value\":{byte}}}"),
        }
    }
}

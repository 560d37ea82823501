//! What `find` answers: a symbol by its name, the value of an attribute; and a data type by its name (docs/FORMAT.md, "The command's text").
#![tactic(auto, unfolding(crate::specs::Find::named, crate::specs::Find::attribute_text))]

ghost use Rattle.std.specs.Prelude.{◌≡◌, OnOk, IfOk, is_ok};
ghost use Rattle.std.specs.Io.KnownBytes.{Appends};
ghost use Rattle.finding.specs.Find.{named, value, place_text, value_text, attribute_text};
ghost use Rattle.finding.specs.Meaning.{NamedMeant};
ghost use Rattle.finding.specs.Written.{FoundWritten};

use attribute::AdsAttribute;
use named::Named;
use refusal::Refusal;
use report::Upload;
use std::io;
use std::io::Write;
use symbol::AdsSymbolInfo;
use walk::Cursor;
use wording::strings::Exact;

/// A symbol or a data type, and where it starts.
#[derive(Clone, Copy, Drop)]
pub struct Found<E> {
    /// In bytes from the start of the upload.
    pub at: usize,
    /// The entry.
    pub entry: E,
}

/// The first entry of a name.
pub fn named<'a, E: Named<'a>>(upload: &Upload<'a>, name: &[u8]) -> Result<Found<E>, Refusal>
    ensures { result ≡ named E.name_of E.read upload.now name.now }
{
    let at = name_find::find::<E>(upload.bytes, upload.mode, name)?;
    let step = Cursor { at }.step::<E>(upload.bytes, upload.mode);
    match step.answer {
        Some(Ok(entry)) => Ok(Found { at, entry }),
        _ => Err(Refusal::NameNotFound),
    }
}

/// Writes where a symbol starts, and its type.
pub fn write_place<W: Write>(found: &Found<AdsSymbolInfo<'_>>, out: &mut W) -> io::Result<()>
    ensures { OnOk result (Appends (W.contents out.old) (W.contents out.new) (place_text found.now)) }
{
    let at = found.at;
    let type_name = Exact(found.entry.type_name);
    writeln!(out, "{at} {type_name}")
}

fn write_value<W: Write>(one: &AdsAttribute<'_>, out: &mut W) -> io::Result<()>
    ensures { OnOk result (Appends (W.contents out.old) (W.contents out.new) (value_text one.now)) }
{
    let value = Exact(one.value);
    writeln!(out, "{value}")
}

/// Writes the value of the first attribute of a name alone; whether there is one.
pub fn write_attribute<W: Write>(
    found: &Found<AdsSymbolInfo<'_>>,
    name: &[u8],
    out: &mut W,
) -> io::Result<bool>
    ensures text { OnOk result (Appends (W.contents out.old) (W.contents out.new) (attribute_text found.now name.now)) }
    ensures answer { IfOk result (λ is_there. is_there ≡ is_ok (value found.now name.now)) }
{
    match found.entry.attributes.named(name) {
        Ok(one) => {
            write_value(&one, out)?;
            Ok(true)
        }
        Err(_) => Ok(false),
    }
}

/// An entry is found exactly where finding without an index finds it: the first of the walk's steps that has the name letter by letter, in any case. A refusal is that of finding.
pub fn named_meant<'a, E: Named<'a>>()
    ensures { NamedMeant E.HEADER E.read E.length_of E.name_of }
{}

/// What is written of a symbol is its place and the type that stands in its entry, and of its attribute the value of the first whose name has these very bytes, in UTF-8; nothing where none has it.
pub fn found_written()
    ensures { FoundWritten }
{}

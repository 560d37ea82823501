//! `bind --json`: an object a path (docs/FORMAT.md, "The command's text").

ghost use Rattle.std.specs.Prelude.{◌≡◌, OnOk, Some};
ghost use Rattle.std.specs.Io.KnownBytes.{Appends};
ghost use Rattle.bind_report.specs.Json.{upload_word, place_there, numbers_text, entry_text, address_text, part_text, figures_text, refused_text, answer_by, json_line, lines_text};

use crate::{Bound, Reason, refused_part};
use bind::Address;
use bind::reading::Place;
use refusal::Refusal;
use std::io::Write;
use std::{fmt, io};
use wording::strings::Quoted;

/// The word for the upload that an entry stands in.
pub fn upload_word(place: Place) -> &'static str
    ensures { result.now ≡ upload_word place }
{
    match place {
        Place::Symbol(_) => "symbols",
        Place::DataType(_) => "types",
    }
}

/// Where an entry starts in its upload, in bytes.
pub fn place_there(place: Place) -> usize
    ensures { result ≡ place_there place }
{
    match place {
        Place::Symbol(at) | Place::DataType(at) => at,
    }
}

// Where a value begins, and how long it is.
#[derive(Clone, Copy)]
struct Numbers<'a>(&'a Address<'a>);

impl fmt::Display for Numbers<'_> {
    ghost output = { λ n. Some (numbers_text n.0.now) };

    #[tactic(auto, unfolding(crate::specs::Json::numbers_text))]
    fn fmt<W: fmt::Write>(&self, f: &mut fmt::Formatter<W>) -> fmt::Result {
        let (group, offset, bit) = (self.0.group.0, self.0.offset.0, self.0.bit);
        write!(f, "\"group\":{group},\"offset\":{offset},\"bit\":{bit}")?;
        let (size, in_bits) = (self.0.size, self.0.size_in_bits);
        write!(f, ",\"size\":{size},\"size_in_bits\":{in_bits}")
    }
}

#[derive(Clone, Copy)]
struct EntryObject(Place);

impl fmt::Display for EntryObject {
    ghost output = { λ e. Some (entry_text e.0) };

    #[tactic(auto, unfolding(crate::specs::Json::entry_text))]
    fn fmt<W: fmt::Write>(&self, f: &mut fmt::Formatter<W>) -> fmt::Result {
        let upload = upload_word(self.0);
        let place = place_there(self.0);
        write!(f, "{{\"upload\":\"{upload}\",\"place\":{place}}}")
    }
}

#[derive(Clone, Copy)]
struct AddressMembers<'a>(&'a Address<'a>);

impl fmt::Display for AddressMembers<'_> {
    ghost output = { λ a. Some (address_text a.0.now) };

    #[tactic(auto, unfolding(crate::specs::Json::address_text))]
    fn fmt<W: fmt::Write>(&self, f: &mut fmt::Formatter<W>) -> fmt::Result {
        let numbers = Numbers(self.0);
        let type_name = Quoted(self.0.type_name);
        let entry = EntryObject(self.0.place);
        write!(f, "{numbers},\"type\":{type_name},\"entry\":{entry}")
    }
}

#[derive(Clone, Copy)]
struct FigureMembers<'a>(&'a Refusal);

impl fmt::Display for FigureMembers<'_> {
    ghost output = { λ m. Some (figures_text m.0.now) };

    #[tactic(auto, unfolding(crate::specs::Json::figures_text))]
    fn fmt<W: fmt::Write>(&self, f: &mut fmt::Formatter<W>) -> fmt::Result {
        let figures = self.0.figures();
        let number = figures.number;
        let expected = figures.expected;
        let got = figures.got;
        write!(
            f,
            "\"refused\":{number},\"expected\":{expected},\"got\":{got}"
        )
    }
}

#[derive(Clone, Copy)]
struct PartOrNull<'a>(Option<&'a [u8]>);

impl fmt::Display for PartOrNull<'_> {
    ghost output = { λ p. Some (part_text p.0) };

    fn fmt<W: fmt::Write>(&self, f: &mut fmt::Formatter<W>) -> fmt::Result {
        match self.0 {
            Some(part) => Quoted(part).fmt(f),
            None => write!(f, "null"),
        }
    }
}

#[derive(Clone, Copy)]
struct RefusedMembers<'a> {
    path: &'a [u8],
    why: &'a Refusal,
}

impl fmt::Display for RefusedMembers<'_> {
    ghost output = { λ r. Some (refused_text r.path r.why.now) };

    #[tactic(auto, unfolding(crate::specs::Json::refused_text))]
    fn fmt<W: fmt::Write>(&self, f: &mut fmt::Formatter<W>) -> fmt::Result {
        let figures = FigureMembers(self.why);
        let reason = Reason(self.why);
        let part = PartOrNull(refused_part(self.path, self.why));
        write!(f, "{figures},\"reason\":\"{reason}\",\"part\":{part}")
    }
}

#[derive(Clone, Copy)]
struct AnswerMembers<'a>(&'a Bound<'a>);

impl fmt::Display for AnswerMembers<'_> {
    ghost output = { λ a. Some (answer_by a.0.now.path a.0.now.answer) };

    fn fmt<W: fmt::Write>(&self, f: &mut fmt::Formatter<W>) -> fmt::Result {
        match &self.0.answer {
            Ok(address) => AddressMembers(address).fmt(f),
            Err(why) => {
                let path = self.0.path;
                RefusedMembers { path, why }.fmt(f)
            }
        }
    }
}

// The line of a path.
#[tactic(auto, unfolding(crate::specs::Json::json_line))]
fn write_line<W: Write>(bound: &Bound<'_>, out: &mut W) -> io::Result<()>
    ensures { OnOk result (Appends (W.contents out.old) (W.contents out.new) (json_line bound.now)) }
{
    let path = Quoted(bound.path);
    let answer = AnswerMembers(bound);
    writeln!(out, "{{\"path\":{path},{answer}}}")
}

/// Writes a line for each of some paths, in their order.
pub fn write_lines<W: Write>(bounds: &[Bound<'_>], out: &mut W) -> io::Result<()>
    ensures { OnOk result (Appends (W.contents out.old) (W.contents out.new) (lines_text bounds.now)) }
{
    for bound in bounds {
        write_line(bound, out)?;
    }
    Ok(())
}

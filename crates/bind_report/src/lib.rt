//! What `bind` answers of the path of a variable: its address, or why it has none (docs/FORMAT.md, "The command's text").
#![tactic(auto)]

ghost use Rattle.std.specs.Prelude.{◌≡◌, ◌≤◌, Some, length};
ghost use Rattle.std.specs.List.{list_all, position_or_len};
ghost use Rattle.bind_report.specs.Aligned.{AddressTablesMeant};
ghost use Rattle.bind_report.specs.Meant.{PathLinesMeant, PartsMeant, ReasonsMeant};
ghost use Rattle.bind_report.specs.Sample.{PathsSampled};
ghost use Rattle.bind_report.specs.Words.{reason_text, place_of, ends_part, part_from, part_at, refused_part, are_all_bound};

pub mod json;
pub mod table;

use bind::Address;
use refusal::Refusal;
use std::fmt;
use wording::{Grouped, InWords};

/// A path with what binding it answers.
#[derive(Clone, Copy, Debug)]
pub struct Bound<'a> {
    /// As it was asked, in Windows-1252.
    pub path: &'a [u8],
    /// Its address, or why it has none.
    pub answer: Result<Address<'a>, Refusal>,
}

/// Whether none of some paths was refused.
pub fn are_all_bound(bounds: &[Bound<'_>]) -> bool
    ensures { result ≡ are_all_bound bounds.now }
{
    for bound in bounds {
        if bound.answer.is_err() {
            return false;
        }
    }
    true
}

/// Why a path has no address, in words. The second figure of 14 is a place here, and not what was asked for.
#[derive(Clone, Copy)]
pub struct Reason<'a>(pub &'a Refusal);

impl fmt::Display for Reason<'_> {
    ghost output = { λ r. Some (reason_text r.0.now) };

    #[tactic(auto, unfolding(crate::specs::Words::reason_text))]
    fn fmt<W: fmt::Write>(&self, f: &mut fmt::Formatter<W>) -> fmt::Result {
        match self.0 {
            Refusal::NoSuchNumber { count, asked } => {
                let (count, asked) = (Grouped(*count), Grouped(*asked));
                write!(
                    f,
                    "refusal 14, no such number: {count} elements there, and none is the subscript at byte {asked} of the path"
                )
            }
            why => InWords(why).fmt(f),
        }
    }
}

// Where in the path the part begins that was refused, if it was one part.
fn place_of(why: &Refusal) -> Option<usize>
    ensures { result ≡ place_of why.now }
{
    match why {
        Refusal::NoSuchNumber { asked: place, .. }
        | Refusal::BadPath { place }
        | Refusal::NoSuchMember { place }
        | Refusal::NoSuchType { place }
        | Refusal::WrongDimensions { place, .. }
        | Refusal::NoOffset { place, .. }
        | Refusal::TooManyAliases { place } => Some(*place),
        _ => None,
    }
}

fn ends_part(b: u8) -> bool
    ensures { result ≡ ends_part b }
{
    b == b'.' || b == b'[' || b == b']' || b == b','
}

// How many bytes stand before the first that ends a part.
#[tactic(auto, using(path::proofs::Laws::count_more, path::proofs::Laws::count_stops, path::proofs::Laws::count_ends))]
fn part_length(s: &[u8]) -> usize
    ensures value { result ≡ position_or_len ends_part s.now }
    ensures within { result ≤ length s.now }
{
    let mut n = 0;
    while n < s.len() {
        if ends_part(s[n]) {
            return n;
        }
        n += 1;
    }
    n
}

#[tactic(auto, unfolding(crate::specs::Words::part_from))]
fn part_from(path: &[u8], place: usize) -> Option<&[u8]>
    ensures { result ≡ part_from path.entry place }
{
    if path.len() < place {
        return None;
    }
    let length = part_length(part::rest_of(path, place));
    Some(part::part_of(path, place, length))
}

/// The part of a path that was refused: from its place up to where it ends. None where no part was.
pub fn refused_part<'a>(path: &'a [u8], why: &Refusal) -> Option<&'a [u8]>
    ensures { result ≡ refused_part path.entry why.now }
{
    match place_of(why) {
        Some(place) => part_from(path, place),
        None => None,
    }
}

// The theorems. Each is the contract of a function that does nothing, so that none goes unnoticed if its proof does.

/// A line of JSON is an object with the members of docs/FORMAT.md in their order: of an address by its numbers, of a refusal by its own.
pub fn path_lines_meant()
    ensures { PathLinesMeant }
{}

/// The part of a path that a refusal tells begins where the refusal was met, and goes to before the next dot, bracket or comma, or to the end; and a
/// refusal that was met in no part tells none.
pub fn parts_meant()
    ensures { PartsMeant }
{}

/// A refusal has the words that it has anywhere, but for a subscript outside its bounds.
pub fn reasons_meant()
    ensures { ReasonsMeant }
{}

/// Six paths, of whose addresses every number is another, character by character: their lines of JSON, and their table.
pub fn paths_sampled()
    ensures { PathsSampled }
{}

/// In the table each column begins at the same character in every line that has an address and in that of the headings, and is wide enough for each of its
/// cells, of which all characters stand there; two spaces stand between two columns, and behind the path of one that has no address.
pub fn address_tables_meant()
    ensures { AddressTablesMeant }
{}

//! Finding an entry by its name, without an index and through one, of any kind that has a name (docs/FORMAT.md, "Finding").
#![tactic(auto)]

ghost use Rattle.std.specs.Prelude.{◌≡◌, Some, drop, is_ok};
ghost use Rattle.std.specs.List.{find as first_of};
ghost use Rattle.refusal.specs.declared.Mode.{Mode};
ghost use Rattle.name_find.specs.Looks.{looks_named};
ghost use Rattle.name_find.specs.Find.{has_name, is_named, find, find_indexed};
ghost use Rattle.name_find.specs.Meaning.{FoundIsFirst, RefusedIsNowhere, FindMeant, AnyCase, SameFind};

use name_order::NamePlaces;
use named::Named;
use refusal::{LIMIT, Mode, Refusal};
use walk::{Unread, Walker};

// A first look at an entry, which settles most of them: small, so that the compiler puts it into the loop.
#[inline(always)]
#[tactic(auto, using(crate::proofs::Looks::looks_short, crate::proofs::Looks::looks_none))]
fn looks_named_at_once(own: &[u8], places: NamePlaces, name: &[u8]) -> bool
    ensures { result ≡ looks_named places own.now name.now }
{
    let present = own.len();
    if present < places.name {
        return false;
    }
    let length = name.len();
    if present - places.name < length {
        return false;
    }
    let told = le::u16_at(own, places.length) as usize;
    if length == 0 {
        return told == 0;
    }
    let last = length - 1;
    names::look(told, own[places.name + last]) == names::look(length, name[last])
}

// The same of the bytes from a place on, for a search from slot to slot: the last place that has room is the same for every slot, and the last byte, mostly in another cache line than the length, is fetched only where the length is right.
#[inline(always)]
#[tactic(auto, using(crate::proofs::Looks::few_from, crate::proofs::Looks::longer_from))]
fn looks_named(bytes: &[u8], places: NamePlaces, at: usize, name: &[u8]) -> bool
    ensures { result ≡ looks_named places (drop at bytes.now) name.now }
{
    let present = bytes.len();
    if present < places.name {
        return false;
    }
    let length = name.len();
    if present - places.name < length {
        return false;
    }
    if present - places.name - length < at {
        return false;
    }
    if le::u16_at(bytes, at + places.length) as usize != length {
        return false;
    }
    names::ends_near(bytes, at + places.name, name)
}

// Whether an entry's own bytes give a record.
fn is_record<'a, E: Named<'a>>(own: &'a [u8], mode: Mode) -> bool
    ensures { result ≡ is_ok (E.read mode own.entry) }
{
    E::accepts(own, mode).is_ok()
}

// Whether an entry's own bytes give a record of that name. The rest of the entry is read only where the name stands in it.
#[inline(always)]
fn has_name<'a, E: Named<'a>>(own: &'a [u8], mode: Mode, name: &[u8]) -> bool
    ensures { result ≡ has_name E.name_of name.now (Some (E.read mode own.entry)) }
{
    let places = E::places();
    if !looks_named_at_once(own, places, name) {
        return false;
    }
    if !names::same_name(own, places.name, name) {
        return false;
    }
    is_record::<E>(own, mode)
}

/// Where the first accepted entry of that name starts.
///
/// # Errors
///
/// 5 above the limit, 10 where a zero claim is met before an entry of that name, 13 where none has it.
#[tactic(auto, using(crate::proofs::Search::find_large, crate::proofs::Search::search_on, crate::proofs::Search::search_refused))]
pub fn find<'a, E: Named<'a>>(bytes: &'a [u8], mode: Mode, name: &[u8]) -> Result<usize, Refusal>
    ensures { result ≡ find E.name_of (E.read mode) bytes.entry name.now }
{
    let length = bytes.len();
    if length > LIMIT {
        return Err(Refusal::TooLarge { length });
    }
    for piece in Walker::<Unread>::new(bytes, mode) {
        match piece.answer {
            Ok(entry) => {
                if has_name::<E>(entry.bytes, mode, name) {
                    return Ok(piece.start);
                }
            }
            Err(Refusal::ZeroEntryLength) => return Err(Refusal::ZeroEntryLength),
            Err(_) => {}
        }
    }
    Err(Refusal::NameNotFound)
}

// Whether the step from a place gives a record of that name. The claim, which mostly stands in another cache line than the name, is read last.
#[inline(always)]
#[tactic(auto, using(entry::proofs::Claims::room_at, crate::proofs::Looks::looked_from), unfolding(crate::specs::Find::is_named, walk::specs::Step::step_at))]
fn is_named<'a, E: Named<'a>>(bytes: &'a [u8], at: usize, mode: Mode, name: &[u8]) -> bool
    ensures { result ≡ is_named E.name_of (E.read mode) bytes.entry name.now at }
{
    let places = E::places();
    if !looks_named(bytes, places, at, name) {
        return false;
    }
    if !names::same_name(bytes, at + places.name, name) {
        return false;
    }
    match entry::claim_at(bytes, at).size {
        Some(Ok(size)) => has_name::<E>(&bytes[at..at + size], mode, name),
        _ => false,
    }
}

// A name that is asked for, of an upload.
#[derive(Clone, Copy)]
struct Asked<'a, 't> {
    bytes: &'a [u8],
    mode: Mode,
    name: &'t [u8],
}

impl<'a> Asked<'a, '_> {
    // The first of some slots that has the name.
    fn first<E: Named<'a>>(self, slots: &[u32]) -> Option<usize>
        ensures { result ≡ first_of (is_named E.name_of (E.read self.entry.mode) self.entry.bytes self.entry.name.now) slots.now }
    {
        for slot in slots {
            let at = *slot as usize;
            if is_named::<E>(self.bytes, at, self.mode, self.name) {
                return Some(at);
            }
        }
        None
    }
}

/// The first slot of an index at which a step of the walk gives a record of that name. Any other slot is passed over, whatever it holds.
///
/// # Errors
///
/// 5 above the limit, 13 where no slot has the name.
#[tactic(auto, using(crate::proofs::Search::find_indexed_large, crate::proofs::Search::find_indexed_within))]
pub fn find_indexed<'a, E: Named<'a>>(
    bytes: &'a [u8],
    mode: Mode,
    slots: &[u32],
    name: &[u8],
) -> Result<usize, Refusal>
    ensures { result ≡ find_indexed E.name_of (E.read mode) bytes.entry slots.now name.now }
{
    let length = bytes.len();
    if length > LIMIT {
        return Err(Refusal::TooLarge { length });
    }
    let asked = Asked { bytes, mode, name };
    asked.first::<E>(slots).ok_or(Refusal::NameNotFound)
}

// The theorems. Each is the contract of a function that does nothing, so that none goes unnoticed if its proof does.

/// What is found is the first that has the name, of the steps of the walk or of the slots.
pub fn found_is_first<'a, E: Named<'a>>()
    ensures { FoundIsFirst E.HEADER E.read E.length_of E.name_of (λ mode. find E.name_of (E.read mode)) (λ mode. find_indexed E.name_of (E.read mode)) }
{}

/// Where an upload within the limit is refused, no step of its walk has the name; through an index, no slot.
pub fn refused_is_nowhere<'a, E: Named<'a>>()
    ensures { RefusedIsNowhere E.HEADER E.read E.length_of E.name_of (λ mode. find E.name_of (E.read mode)) (λ mode. find_indexed E.name_of (E.read mode)) }
{}

/// An upload above the limit is refused by 5; within it the first that has the name is answered; where none has it, it is 10 where a step of the walk stands, and else, as through an index, 13.
pub fn find_meant<'a, E: Named<'a>>()
    ensures { FindMeant E.HEADER E.read E.length_of E.name_of (λ mode. find E.name_of (E.read mode)) (λ mode. find_indexed E.name_of (E.read mode)) }
{}

/// A name in any case is found as in any other.
pub fn any_case<'a, E: Named<'a>>()
    ensures { AnyCase (λ mode. find E.name_of (E.read mode)) (λ mode. find_indexed E.name_of (E.read mode)) }
{}

/// Through an index that was built a name is found as without one.
pub fn same_find<'a, E: Named<'a>>()
    ensures { SameFind (λ mode. find E.name_of (E.read mode)) (λ mode. find_indexed E.name_of (E.read mode)) E.read }
{}

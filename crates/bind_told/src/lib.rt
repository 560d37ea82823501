//! The address of a variable, told in numbers (docs/FORMAT.md, "Binding").
#![tactic(auto)]

ghost use Rattle.std.specs.Prelude.{◌≡◌, ◌<◌, ◌^◌, slice_index};
ghost use Rattle.le.specs.Le.{le2};
ghost use Rattle.told.specs.Told.{Tells, record_told};
ghost use Rattle.told.specs.Slots.{slots_after};
ghost use Rattle.bind_told.specs.Address.{address_slots, behind, upload_of, start_of, type_name_at};
ghost use Rattle.bind_told.specs.Meaning.{AddressesTold};

use bind::Address;
use bind::reading::Place;
use refusal::Refusal;
use told::{DONE, refused, tell};

// What is not there counts as 0.
fn byte_at(s: &[u8], at: usize) -> u8
    ensures { result ≡ slice_index s.now at }
{
    if at < s.len() { s[at] } else { 0 }
}

#[tactic(auto, unfolding(le::specs::Le::le2))]
fn u16_at(s: &[u8], at: usize) -> u16
    requires { at < 2 ^ 32 }
    ensures { result ≡ le2 s.now at }
{
    (byte_at(s, at) as u16) + (byte_at(s, at + 1) as u16) * 256
}

// The bytes behind so many, or none.
fn behind(s: &[u8], at: usize) -> &[u8]
    ensures { result ≡ behind s.entry at }
{
    &s[at.min(s.len())..]
}

// Behind the name, whose length the entry's header has, and its end byte.
fn type_name_at(symbols: &[u8], types: &[u8], place: Place) -> usize
    ensures { result ≡ type_name_at symbols.entry types.entry place }
{
    match place {
        Place::Symbol(at) => 31 + u16_at(behind(symbols, at), 24) as usize,
        Place::DataType(at) => 43 + u16_at(behind(types, at), 32) as usize,
    }
}

fn upload_of(place: Place) -> usize
    ensures { result ≡ upload_of place }
{
    match place {
        Place::Symbol(_) => 0,
        Place::DataType(_) => 1,
    }
}

fn start_of(place: Place) -> usize
    ensures { result ≡ start_of place }
{
    match place {
        Place::Symbol(at) | Place::DataType(at) => at,
    }
}

/// An address of something in two uploads, in slots.
#[tactic(auto, unfolding(crate::specs::Address::address_slots))]
pub fn address(
    symbols: &[u8],
    types: &[u8],
    found: Result<Address<'_>, Refusal>,
    slots: &mut [u64; 9],
    answer: &mut [u64; 2],
) -> u32
    ensures tells { Tells (record_told found.entry) result answer.new }
    ensures slots_after { slots.new ≡ slots_after (address_slots symbols.entry types.entry) found.entry slots.old }
{
    match found {
        Ok(address) => {
            *slots = [
                address.group.0 as u64,
                address.offset.0 as u64,
                address.bit as u64,
                address.size as u64,
                address.size_in_bits as u64,
                upload_of(address.place) as u64,
                start_of(address.place) as u64,
                type_name_at(symbols, types, address.place) as u64,
                address.type_name.len() as u64,
            ];
            tell(DONE, 0, 0, answer)
        }
        Err(why) => refused(why, answer),
    }
}

/// The theorem, as the contract of a function that does nothing: each slot says the address's own, by its number; the name of the type stands where its two slots
/// and the entry's start say; a refusal is told by its number and figures, and leaves the slots as they were.
pub fn addresses_told()
    ensures { AddressesTold }
{}

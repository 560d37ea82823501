//! Along the parts of a path, from entry to entry (docs/FORMAT.md, "Binding").
#![tactic(auto)]

ghost use Rattle.std.specs.Prelude.{◌≡◌, ℕ, ◌*◌, ◌/◌, ◌<◌, ◌≤◌, ◌^◌, IfSome, length};
ghost use Rattle.names.specs.Names.{same_name};
ghost use Rattle.bind.specs.Reading.{name_of};
ghost use Rattle.bind.specs.Binding.{unit, dimensions, moved, member_of, at_member, to_member, from_lower, index_of, to_element, to_part};

use crate::reading::{self, Entry};
use data_type::SubItems;
use path::{Part, Subscript};
use refusal::{LARGEST_OFFSET, Refusal};

/// Where a path has led so far.
#[derive(Clone, Copy)]
pub struct Here<'a> {
    /// The entry that the last part named, or its data type.
    pub entry: Entry<'a>,
    /// The offset in the index group, in bytes, and which bit of the byte there.
    pub offset: u32,
    pub bit: u8,
    /// The size of what is here, in bytes, or in bits where the entry's numbers are.
    pub size: u32,
    /// The array records of the dimensions that have no subscript yet.
    pub left: &'a [u8],
}

/// Where a path has led, and what is left of it.
#[derive(Clone, Copy)]
pub struct Way<'a, 'p> {
    pub here: Here<'a>,
    pub rest: &'p [u8],
}

// So many of the units of an entry's numbers, in bits.
fn bits(number: u64, entry: &Entry<'_>) -> u64
    requires { number < 2 ^ 32 }
    ensures value { result ≡ number * unit entry.now }
    ensures small { result < 2 ^ 40 }
{
    if entry.in_bits { number } else { 8 * number }
}

fn dimensions(entry: &Entry<'_>) -> usize
    ensures { result ≡ dimensions entry.now }
{
    entry.arrays.len() / 8
}

impl<'a> Here<'a> {
    // At an entry, so many bits further on.
    #[tactic(auto, unfolding(crate::specs::Binding::moved))]
    fn moved(
        &self,
        entry: Entry<'a>,
        bits: u64,
        size: u32,
        left: &'a [u8],
    ) -> Result<Here<'a>, Refusal>
        requires { bits < 2 ^ 40 }
        ensures { result ≡ moved self.now entry.entry bits size left.entry }
    {
        let to = 8 * self.offset as u64 + self.bit as u64 + bits;
        let offset = (to / 8) as usize;
        if LARGEST_OFFSET < offset {
            return Err(Refusal::OffsetTooLarge { offset });
        }
        Ok(Here {
            entry,
            offset: offset as u32,
            bit: (to % 8) as u8,
            size,
            left,
        })
    }
}

// Of some sub-items, which end at a place of the upload, the first of a name.
#[tactic(auto, using(crate::proofs::Members::one_more, crate::proofs::Members::none_more))]
fn member_of<'a>(name: &[u8], items: SubItems<'a>, end: usize) -> Option<Entry<'a>>
    ensures { result ≡ member_of name.now items.entry.count items.entry.bytes end }
{
    let mut rest = items;
    let mut left = items.count;
    while 0 < left {
        if is_named(rest.bytes, name) {
            return Some(reading::type_entry(rest.bytes, end));
        }
        rest.bytes = reading::behind(rest.bytes, le::first_u32(rest.bytes) as usize);
        left -= 1;
    }
    None
}

// Whether the entry at the start of some bytes has a name.
fn is_named(entry: &[u8], name: &[u8]) -> bool
    ensures { result ≡ same_name (name_of entry.entry).now name.now }
{
    let own = reading::name_of(entry);
    if own.len() != name.len() {
        return false;
    }
    names::same_name(own, 0, name)
}

// Which element, from 0, a number is in a dimension with a lower bound and so many elements. Number and bound count from the least of 32 bits with a sign.
fn from_lower(number: u64, lower: u32, elements: u32) -> Option<u64>
    ensures value { result ≡ from_lower number lower elements }
    ensures small { IfSome result (λ i. i < elements) }
{
    let first = (lower as u64 + 2147483648) % 4294967296;
    if number < first || elements as u64 <= number - first {
        return None;
    }
    Some(number - first)
}

#[tactic(auto, unfolding(crate::specs::Binding::index_of))]
fn index_of(subscript: Subscript, lower: u32, elements: u32) -> Option<u64>
    ensures value { result ≡ index_of subscript lower elements }
    ensures small { IfSome result (λ i. i < elements) }
{
    let magnitude = subscript.magnitude;
    if subscript.negative {
        if 2147483648 < magnitude {
            return None;
        }
        return from_lower(2147483648 - magnitude, lower, elements);
    }
    if 8589934591 < magnitude {
        return None;
    }
    from_lower(2147483648 + magnitude, lower, elements)
}

// How far an element is from the first, where all are of one size.
#[tactic(auto, using(crate::proofs::Members::rows_within))]
fn rows_before(index: u64, size: u32, elements: u32) -> u64
    requires { index < elements }
    ensures value { result ≡ index * (size / elements) }
    ensures small { result < 2 ^ 32 }
{
    index * (size / elements) as u64
}

impl<'a> Here<'a> {
    ghost use Rattle.bind.specs.Binding.{to_member, to_element, to_part};

    // The member that was found, if one was, for a part of the path at a place.
    #[tactic(auto, unfolding(crate::specs::Binding::at_member))]
    fn at_member(&self, at: usize, found: Option<Entry<'a>>) -> Result<Here<'a>, Refusal>
        ensures { result ≡ at_member self.now at found.entry }
    {
        let Some(entry) = found else {
            return Err(Refusal::NoSuchMember { place: at });
        };
        if entry.mark != 0 {
            return Err(Refusal::NoOffset {
                place: at,
                flag: entry.mark as usize,
            });
        }
        self.moved(
            entry,
            bits(entry.offset as u64, &entry),
            entry.size,
            entry.arrays,
        )
    }

    // The member of a name.
    #[tactic(auto, unfolding(crate::specs::Binding::to_member))]
    fn to_member(&self, name: &[u8], at: usize) -> Result<Here<'a>, Refusal>
        ensures { result ≡ to_member self.now name.now at }
    {
        let entry = &self.entry;
        if 7 < self.left.len() {
            return Err(Refusal::WrongDimensions {
                place: at,
                dimensions: dimensions(entry),
            });
        }
        self.at_member(at, member_of(name, entry.items, entry.end))
    }

    // An element of the first dimension that is left.
    #[tactic(auto, unfolding(crate::specs::Binding::to_element, crate::specs::Binding::at_element))]
    fn to_element(&self, subscript: Subscript, at: usize) -> Result<Here<'a>, Refusal>
        ensures { result ≡ to_element self.now subscript at }
    {
        if self.left.len() < 8 {
            return Err(Refusal::WrongDimensions {
                place: at,
                dimensions: dimensions(&self.entry),
            });
        }
        let elements = le::u32_at(self.left, 4);
        let Some(index) = index_of(subscript, le::u32_at(self.left, 0), elements) else {
            return Err(Refusal::NoSuchNumber {
                count: elements as usize,
                asked: at,
            });
        };
        let rows = rows_before(index, self.size, elements);
        self.moved(
            self.entry,
            bits(rows, &self.entry),
            self.size / elements,
            reading::behind(self.left, 8),
        )
    }

    /// The member or the element that a part of the path names, which stands at a place of the path.
    #[tactic(auto, unfolding(crate::specs::Binding::to_part))]
    pub fn to_part(&self, part: Part<'_>, at: usize) -> Result<Here<'a>, Refusal>
        ensures { result ≡ to_part self.now part.entry at }
    {
        match part {
            Part::Member(name) => self.to_member(name, at),
            Part::Element(subscript) => self.to_element(subscript, at),
        }
    }
}

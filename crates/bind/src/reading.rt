//! What an entry tells on the way along a path, by its bytes (docs/FORMAT.md, "Binding").
#![tactic(auto, unfolding(crate::specs::Reading::symbol_entry, crate::specs::Reading::type_entry))]

ghost use Rattle.std.specs.Prelude.{◌≡◌, ◌<◌, ◌^◌, slice_index};
ghost use Rattle.le.specs.Le.{le2, le4};
ghost use Rattle.bind.specs.Reading.{behind, front, own_of, name_of, symbol_mark, type_mark, pointer_mark, symbol_entry, symbol_group, type_entry};

use data_type::SubItems;

/// In which upload an entry starts, and where.
#[derive(Clone, Copy, Debug, PartialEq, Eq)]
pub enum Place {
    /// In the upload of symbols.
    Symbol(usize),
    /// In the upload of data types: a data type, or a member of one.
    DataType(usize),
}

/// What an entry tells of a variable, of a data type or of a member.
#[derive(Clone, Copy)]
pub struct Entry<'a> {
    /// Where it starts.
    pub place: Place,
    /// Its offset and its size, in bytes or in bits.
    pub offset: u32,
    pub size: u32,
    /// Whether they are in bits.
    pub in_bits: bool,
    /// The flag because of which it has no offset, or lends none to what is below it; else 0.
    pub mark: u32,
    /// The flag that says that it is a pointer, so that no data type takes its place; else 0.
    pub pointer: u32,
    /// The name of its type.
    pub type_name: &'a [u8],
    /// Its array records, 8 bytes each.
    pub arrays: &'a [u8],
    /// Its sub-items.
    pub items: SubItems<'a>,
    /// Where its own bytes end in the upload of data types.
    pub end: usize,
}

// What is not there counts as 0.
fn byte_at(s: &[u8], at: usize) -> u8
    ensures { result ≡ slice_index s.now at }
{
    if at < s.len() { s[at] } else { 0 }
}

#[tactic(auto, unfolding(le::specs::Le::le2))]
fn u16_at(s: &[u8], at: usize) -> u16
    requires { at < 2 ^ 32 }
    ensures { result ≡ le2 s.now at }
{
    (byte_at(s, at) as u16) + (byte_at(s, at + 1) as u16) * 256
}

#[tactic(auto, unfolding(le::specs::Le::le4))]
fn u32_at(s: &[u8], at: usize) -> u32
    requires { at < 2 ^ 32 }
    ensures { result ≡ le4 s.now at }
{
    (byte_at(s, at) as u32)
        + (byte_at(s, at + 1) as u32) * 256
        + (byte_at(s, at + 2) as u32) * 65536
        + (byte_at(s, at + 3) as u32) * 16777216
}

/// The bytes behind so many, or none.
pub fn behind(s: &[u8], n: usize) -> &[u8]
    ensures { result ≡ behind s.entry n }
{
    &s[n.min(s.len())..]
}

/// So many bytes, or as many as there are.
#[tactic(auto, using(std::proofs::lemmas::List::take_min))]
pub fn front(s: &[u8], n: usize) -> &[u8]
    ensures { result ≡ front s.entry n }
{
    &s[..n.min(s.len())]
}

fn own_of(s: &[u8]) -> &[u8]
    ensures { result ≡ own_of s.entry }
{
    front(s, le::first_u32(s) as usize)
}

/// The name of the data type, or of the member, at the start of some bytes.
pub fn name_of(s: &[u8]) -> &[u8]
    ensures { result ≡ name_of s.entry }
{
    front(behind(s, 42), u16_at(s, 32) as usize)
}

fn symbol_mark(flags: u16) -> u32
    ensures { result ≡ symbol_mark flags }
{
    let flags = flags as u32;
    if le::has(flags, 0x2) {
        0x2
    } else if le::has(flags, 0x4) {
        0x4
    } else {
        0
    }
}

fn type_mark(flags: u32) -> u32
    ensures { result ≡ type_mark flags }
{
    if le::has(flags, 0x4) {
        0x4
    } else if le::has(flags, 0x40) {
        0x40
    } else if le::has(flags, 0x20000) {
        0x20000
    } else {
        0
    }
}

fn pointer_mark(flags: u32) -> u32
    ensures { result ≡ pointer_mark flags }
{
    if le::has(flags, 0x400) {
        0x400
    } else if le::has(flags, 0x800000) {
        0x800000
    } else {
        0
    }
}

/// The symbol at a place of its upload.
pub fn symbol_entry(bytes: &[u8], at: usize) -> Entry<'_>
    ensures { result ≡ symbol_entry bytes.entry at }
{
    let own = own_of(behind(bytes, at));
    let none = front(own, 0);
    Entry {
        place: Place::Symbol(at),
        offset: u32_at(own, 8),
        size: u32_at(own, 12),
        in_bits: false,
        mark: symbol_mark(u16_at(own, 20)),
        pointer: 0,
        type_name: front(
            behind(own, 31 + u16_at(own, 24) as usize),
            u16_at(own, 26) as usize,
        ),
        arrays: none,
        items: SubItems {
            bytes: none,
            count: 0,
        },
        end: 0,
    }
}

/// Its index group.
pub fn symbol_group(bytes: &[u8], at: usize) -> u32
    ensures { result ≡ symbol_group bytes.entry at }
{
    u32_at(own_of(behind(bytes, at)), 4)
}

/// The data type, or the member, at the start of some bytes, which end at a place of its upload.
pub fn type_entry(s: &[u8], end: usize) -> Entry<'_>
    ensures { result ≡ type_entry s.entry end }
{
    let own = own_of(s);
    let name = u16_at(own, 32) as usize;
    let type_name = u16_at(own, 34) as usize;
    let strings_end = 45 + name + type_name + u16_at(own, 36) as usize;
    let arrays = 8 * u16_at(own, 38) as usize;
    let flags = u32_at(own, 28);
    Entry {
        place: Place::DataType(end.saturating_sub(s.len())),
        offset: u32_at(own, 20),
        size: u32_at(own, 16),
        in_bits: le::has(flags, 0x20),
        mark: type_mark(flags),
        pointer: pointer_mark(flags),
        type_name: front(behind(own, 43 + name), type_name),
        arrays: front(behind(own, strings_end), arrays),
        items: SubItems {
            bytes: behind(own, strings_end + arrays),
            count: u16_at(own, 40),
        },
        end: end.saturating_sub(behind(s, le::first_u32(s) as usize).len()),
    }
}

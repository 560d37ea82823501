//! From a variable's path to its address (docs/FORMAT.md, "Binding").
#![tactic(auto)]

ghost use Rattle.std.specs.Prelude.{◌≡◌, ◌+◌, ◌≤◌, IfOk, length};
ghost use Rattle.le.specs.Le.{le4};
ghost use Rattle.bind.specs.Found.{found, symbol_found, type_found};
ghost use Rattle.bind.specs.Binding.{within_limit, longest, start_at, below, told, from_symbol, binding};

pub mod reading;
pub mod steps;
pub mod theorems;
pub mod types;

use flags::index_group::IndexGroup;
use flags::index_offset::IndexOffset;
use named::Named;
use reading::{Entry, Place};
use refusal::{LIMIT, Mode, Refusal};
use steps::{Here, Way};
use symbol::AdsSymbolInfo;
use types::NamedTypes;

/// An upload with the slots of its name index.
#[derive(Clone, Copy, Debug)]
pub struct Upload<'a> {
    /// The entries, one behind another.
    pub bytes: &'a [u8],
    /// The starts of its name index.
    pub slots: &'a [u32],
}

impl<'a> Upload<'a> {
    // Where an entry of a name starts, by halving.
    fn find<E: Named<'a>>(self, mode: Mode, name: &[u8]) -> Result<usize, Refusal>
        ensures { result ≡ found E.places E.name_of (E.read mode) self.entry name.now }
    {
        let before = name_order::starts_before(self.bytes, E::places(), self.slots, name);
        let rest = &self.slots[before..];
        let one = rest.len().min(1);
        name_find::find_indexed::<E>(self.bytes, mode, &rest[..one], name)
    }
}

/// The address of a variable, or of a part of one.
#[derive(Clone, Copy, Debug)]
pub struct Address<'a> {
    /// The symbol's index group.
    pub group: IndexGroup,
    /// The byte in it where the value begins, and which of its bits, from 0 to 7.
    pub offset: IndexOffset,
    pub bit: u8,
    /// How long the value is, in bytes, or in bits.
    pub size: u32,
    pub size_in_bits: bool,
    /// The name of its type. Of an element that is the type of all of the array's elements, or of the array.
    pub type_name: &'a [u8],
    /// The entry that says so.
    pub place: Place,
}

// Of the names with which a path begins the longest that a symbol has: its length, and where the symbol starts.
#[tactic(auto, using(crate::proofs::Prefixes::none_left, crate::proofs::Prefixes::one_less))]
fn longest(symbols: Upload<'_>, mode: Mode, path: &[u8]) -> Result<(usize, usize), Refusal>
    ensures value { result ≡ longest (symbol_found mode symbols.entry) path.now (length path.now + 1) }
    ensures within { IfOk result (λ found. found.0 ≤ length path.now) }
{
    let mut left = path.len() + 1;
    while 0 < left {
        left -= 1;
        if path::ends(part::rest_of(path, left)) {
            if let Ok(start) = find_symbol(symbols, mode, &path[..left]) {
                return Ok((left, start));
            }
        }
    }
    Err(Refusal::NameNotFound)
}

#[tactic(auto, unfolding(crate::specs::Found::symbol_found))]
fn find_symbol(symbols: Upload<'_>, mode: Mode, name: &[u8]) -> Result<usize, Refusal>
    ensures { result ≡ symbol_found mode symbols.entry name.now }
{
    symbols.find::<AdsSymbolInfo>(mode, name)
}

fn start_at(entry: Entry<'_>) -> Here<'_>
    ensures { result ≡ start_at entry.entry }
{
    Here {
        entry,
        offset: entry.offset,
        bit: 0,
        size: entry.size,
        left: entry.arrays,
    }
}

// Below a symbol, if a path that is so long goes on.
#[tactic(auto, unfolding(crate::specs::Binding::below))]
fn below<'a>(
    types: NamedTypes<'a>,
    long: usize,
    entry: Entry<'a>,
    text: &[u8],
) -> Result<Here<'a>, Refusal>
    requires { long ≤ 16777216 }
    ensures { result ≡ below (type_found types.entry.mode types.entry.upload) types.entry.upload.bytes long entry.entry text.entry }
{
    let start = start_at(entry);
    if text.is_empty() {
        return Ok(start);
    }
    if entry.mark != 0 {
        return Err(Refusal::NoOffset {
            place: (long + 1).saturating_sub(text.len()),
            flag: entry.mark as usize,
        });
    }
    types.along(
        long,
        Way {
            here: start,
            rest: text,
        },
    )
}

// The address, unless some of an array's dimensions have a subscript and others not.
#[tactic(auto, unfolding(crate::specs::Binding::told))]
fn told<'a>(long: usize, group: u32, here: &Here<'a>) -> Result<Address<'a>, Refusal>
    ensures { result ≡ told long group here.now }
{
    let entry = here.entry;
    if 7 < here.left.len() && here.left.len() < entry.arrays.len() {
        return Err(Refusal::WrongDimensions {
            place: long,
            dimensions: entry.arrays.len() / 8,
        });
    }
    Ok(Address {
        group: IndexGroup(group),
        offset: IndexOffset(here.offset),
        bit: here.bit,
        size: here.size,
        size_in_bits: entry.in_bits,
        type_name: entry.type_name,
        place: entry.place,
    })
}

fn check_length(bytes: &[u8]) -> Result<(), Refusal>
    ensures { result ≡ within_limit bytes.now }
{
    let length = bytes.len();
    if length > LIMIT {
        return Err(Refusal::TooLarge { length });
    }
    Ok(())
}

// The address below the symbol that was found, by how much of the path names it and where it starts.
#[tactic(auto, unfolding(crate::specs::Binding::from_symbol))]
fn from_symbol<'a>(
    types: NamedTypes<'a>,
    symbols: &'a [u8],
    path: &[u8],
    found: (usize, usize),
) -> Result<Address<'a>, Refusal>
    requires gone { found.0 ≤ length path.now }
    requires long { length path.now ≤ 16777216 }
    ensures { result ≡ from_symbol (type_found types.entry.mode types.entry.upload) symbols.entry types.entry.upload.bytes path.entry found }
{
    let (gone, start) = found;
    let entry = reading::symbol_entry(symbols, start);
    let here = below(types, path.len(), entry, &path[gone..])?;
    told(path.len(), reading::symbol_group(symbols, start), &here)
}

/// The address of the variable, or of the part of one, that a path names.
///
/// # Errors
///
/// 5 for the symbols, the data types and the path above the limit; 13 where no symbol has a name with which the path begins; 22 where
/// the path goes on below a symbol that is a bit or a reference; then what is met first along the path, part by part: 20, 22, 24, 13, 22,
/// 21, 14 and 23 (docs/FORMAT.md, "Binding").
#[tactic(auto, unfolding(crate::specs::Binding::binding))]
pub fn bind<'a>(
    symbols: Upload<'a>,
    types: Upload<'a>,
    mode: Mode,
    path: &[u8],
) -> Result<Address<'a>, Refusal>
    ensures { result ≡ binding (symbol_found mode symbols.entry) (type_found mode types.entry) symbols.entry.bytes types.entry.bytes path.entry }
{
    check_length(symbols.bytes)?;
    check_length(types.bytes)?;
    check_length(path)?;
    let found = longest(symbols, mode, path)?;
    let types = NamedTypes {
        upload: types,
        mode,
    };
    from_symbol(types, symbols.bytes, path, found)
}

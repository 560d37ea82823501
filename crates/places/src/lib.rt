//! Where in some bytes the records stand that were read from them: places, as a caller wants them who can't hold a part of the bytes.
#![tactic(auto)]

pub mod alone;
pub mod of_entry;
pub mod theorems;

ghost use Rattle.std.specs.Prelude.{◌≡◌};
ghost use Rattle.part.specs.End.{IsEnd};
ghost use Rattle.places.specs.Places.{IsAttributeBefore, IsRefactorBefore, attribute_places, refactor_places, attribute_numbered, attribute_named, refactor_numbered};

use attribute::{AdsAttribute, Attributes};
use refactor::{AdsRefactorInfo, RefactorInfos};
use refusal::Refusal;

/// Where an attribute stands.
#[derive(Clone, Copy, Debug, PartialEq, Eq)]
pub struct AttributePlaces {
    pub name: usize,
    pub name_len: usize,
    pub value: usize,
    pub value_len: usize,
    /// The place after the attribute.
    pub next: usize,
}

/// Where a refactor record stands, and its number.
#[derive(Clone, Copy, Debug, PartialEq, Eq)]
pub struct RefactorPlaces {
    pub count: u32,
    pub followed: bool,
    pub name: usize,
    pub name_len: usize,
    /// The place after the record.
    pub next: usize,
}

// Of an attribute of some bytes, by what is left of them behind it.
fn attribute_before(own: &[u8], rest: &[u8], attribute: AdsAttribute<'_>) -> AttributePlaces
    requires { IsAttributeBefore own attribute rest }
    ensures { result ≡ attribute_places own.entry attribute.entry }
{
    let next = own.len() - rest.len();
    let value_len = attribute.value.len();
    let value = next - 1 - value_len;
    let name_len = attribute.name.len();
    let name = value - 1 - name_len;
    AttributePlaces {
        name,
        name_len,
        value,
        value_len,
        next,
    }
}

// Of a refactor record likewise.
fn refactor_before(own: &[u8], rest: &[u8], info: AdsRefactorInfo<'_>) -> RefactorPlaces
    requires { IsRefactorBefore own info rest }
    ensures { result ≡ refactor_places own.entry info.entry }
{
    let next = own.len() - rest.len();
    let name_len = info.name.len();
    let name = next - 1 - name_len;
    RefactorPlaces {
        count: info.refactor_count,
        followed: info.next_refactor_info,
        name,
        name_len,
        next,
    }
}

// The attribute with a number, counted from 0, of those at the end of an entry.
pub(crate) fn attribute_numbered(
    own: &[u8],
    all: Attributes<'_>,
    number: usize,
) -> Result<AttributePlaces, Refusal>
    requires { IsEnd own all.bytes }
    ensures { result ≡ attribute_numbered own.entry all.entry number }
{
    let mut rest = all;
    match rest.nth(number) {
        Some(attribute) => Ok(attribute_before(own, rest.bytes, attribute)),
        None => Err(Refusal::NoSuchNumber {
            count: all.count,
            asked: number,
        }),
    }
}

// The first attribute with a name, of those at the end of an entry.
pub(crate) fn attribute_named(
    own: &[u8],
    all: Attributes<'_>,
    name: &[u8],
) -> Result<AttributePlaces, Refusal>
    requires { IsEnd own all.bytes }
    ensures { result ≡ attribute_named own.entry all.entry name.now }
{
    let mut rest = all;
    match rest.find(|attribute| attribute.name == name) {
        Some(attribute) => Ok(attribute_before(own, rest.bytes, attribute)),
        None => Err(Refusal::NameNotFound),
    }
}

// The record with a number, counted from 0, of a chain at the end of an entry.
pub(crate) fn refactor_numbered(
    own: &[u8],
    all: RefactorInfos<'_>,
    number: usize,
) -> Result<RefactorPlaces, Refusal>
    requires { IsEnd own all.bytes }
    ensures { result ≡ refactor_numbered own.entry all.entry number }
{
    let mut rest = all;
    match rest.nth(number) {
        Some(info) => Ok(refactor_before(own, rest.bytes, info)),
        None => Err(Refusal::NoSuchNumber {
            count: all.count,
            asked: number,
        }),
    }
}

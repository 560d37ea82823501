// Records and chains that stand alone.
ghost use Rattle.std.specs.Prelude.{◌≡◌, ◌≤◌, length};
ghost use Rattle.part.specs.Slice.{after};
ghost use Rattle.places.specs.Alone.{attribute_alone, refactor_alone, chain_read, chain_record};

use crate::{
    AttributePlaces, RefactorPlaces, attribute_before, refactor_before, refactor_numbered,
};
use attribute::AdsAttribute;
use refactor::{AdsRefactorInfo, RefactorInfos};
use refusal::{Mode, Refusal};

// What stands behind so many bytes.
fn behind(bytes: &[u8], size: usize) -> &[u8]
    requires { size ≤ length bytes.now }
    ensures { result ≡ after bytes.entry size }
{
    &bytes[size..]
}

/// The attribute at the start of some bytes.
#[tactic(auto, using(crate::proofs::Single::attribute_alone_before, crate::proofs::Single::attribute_room))]
pub fn attribute_alone(bytes: &[u8], mode: Mode) -> Result<AttributePlaces, Refusal>
    ensures { result ≡ attribute_alone mode bytes.entry }
{
    let attribute = AdsAttribute::parse(bytes, mode)?;
    let size = attribute.name.len() + attribute.value.len() + 4;
    Ok(attribute_before(bytes, behind(bytes, size), attribute))
}

/// The refactor record at the start of some bytes.
#[tactic(auto, using(crate::proofs::Single::refactor_alone_before, crate::proofs::Single::refactor_room))]
pub fn refactor_alone(bytes: &[u8], mode: Mode) -> Result<RefactorPlaces, Refusal>
    ensures { result ≡ refactor_alone mode bytes.entry }
{
    let info = AdsRefactorInfo::parse(bytes, mode)?;
    let size = info.name.len() + 7;
    Ok(refactor_before(bytes, behind(bytes, size), info))
}

/// How many records the chain at the start of some bytes has, and the place after them.
#[tactic(auto, using(crate::proofs::Single::chain_ends, crate::proofs::Single::chain_within))]
pub fn chain_read(bytes: &[u8], mode: Mode) -> Result<(usize, usize), Refusal>
    ensures { result ≡ chain_read mode bytes.entry }
{
    let (chain, rest) = RefactorInfos::parse(bytes, mode)?;
    Ok((chain.count, bytes.len() - rest.len()))
}

/// The record of a chain with a number, counted from 0.
#[tactic(auto, using(crate::proofs::Single::chain_end))]
pub fn chain_record(bytes: &[u8], mode: Mode, number: usize) -> Result<RefactorPlaces, Refusal>
    ensures { result ≡ chain_record mode bytes.entry number }
{
    let (chain, _) = RefactorInfos::parse(bytes, mode)?;
    refactor_numbered(bytes, chain, number)
}

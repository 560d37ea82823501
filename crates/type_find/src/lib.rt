//! Finding a data type by its name, without an index and through one (docs/FORMAT.md, "Finding").
#![tactic(auto)]

ghost use Rattle.std.specs.Prelude.{◌≡◌};
ghost use Rattle.type_find.specs.Find.{find, find_indexed};
ghost use Rattle.type_find.specs.Meaning.{FoundIsFirst, RefusedIsNowhere, FindMeant, AnyCase, SameFind, UselessShutOut};

use data_type::AdsDataTypeInfo;
use refusal::{Mode, Refusal};

/// Where the first accepted data type of that name starts.
///
/// # Errors
///
/// 5 above the limit, 10 where a zero claim is met before a data type of that name, 13 where none has it.
pub fn find(bytes: &[u8], mode: Mode, name: &[u8]) -> Result<usize, Refusal>
    ensures { result ≡ find mode bytes.entry name.now }
{
    name_find::find::<AdsDataTypeInfo>(bytes, mode, name)
}

/// The first slot of an index at which a step of the walk gives a data type of that name. Any other slot is passed over, whatever it holds.
///
/// # Errors
///
/// 5 above the limit, 13 where no slot has the name.
pub fn find_indexed(bytes: &[u8], mode: Mode, slots: &[u32], name: &[u8]) -> Result<usize, Refusal>
    ensures { result ≡ find_indexed mode bytes.entry slots.now name.now }
{
    name_find::find_indexed::<AdsDataTypeInfo>(bytes, mode, slots, name)
}

// The theorems. Each is the contract of a function that does nothing, so that none goes unnoticed if its proof does.

/// What is found is the first that has the name, of the steps of the walk or of the slots.
pub fn found_is_first()
    ensures { FoundIsFirst find find_indexed }
{}

/// Where an upload within the limit is refused, no step of its walk has the name; through an index, no slot.
pub fn refused_is_nowhere()
    ensures { RefusedIsNowhere find find_indexed }
{}

/// An upload above the limit is refused by 5; within it the first that has the name is answered; where none has it, it is 10 where a step of the walk stands, and else, as through an index, 13.
pub fn find_meant()
    ensures { FindMeant find find_indexed }
{}

/// A name in any case is found as in any other.
pub fn any_case()
    ensures { AnyCase find find_indexed }
{}

/// Through an index that was built a name is found as without one.
pub fn same_find()
    ensures { SameFind }
{}

/// Finding that refuses every name, or answers a place unseen, is not what these theorems allow.
pub fn useless_shut_out()
    ensures { UselessShutOut }
{}

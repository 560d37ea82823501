//! Why the sections of a symbol are there or not, told: each reason in six slots.
ghost use Rattle.std.specs.Prelude.{◌≡◌};
ghost use Rattle.told.specs.Told.{Tells, record_told};
ghost use Rattle.told.specs.Slots.{slots_after};
ghost use Rattle.told.specs.Reasons.{reason_slots, guid_slots, attributes_slots, extended_slots, chain_slots, ReasonsTold, SlotsInOrder};

use crate::{DONE, refused, tell};
use refusal::Refusal;
use why::{Reason, Reasons};

/// A reason's number (docs/FORMAT.md, "Why") and its figures; those of a refused record are its place, which of the list it is, and the refusal's number and figures.
fn slots(reason: Reason) -> [u64; 6]
    ensures { result ≡ reason_slots reason }
{
    match reason {
        Reason::NotFlagged => [1, 0, 0, 0, 0, 0],
        Reason::NoExtendedFlags => [2, 0, 0, 0, 0, 0],
        Reason::NoRoom { place, left } => [3, place as u64, left as u64, 0, 0, 0],
        Reason::Whole { place, count } => [4, place as u64, count as u64, 0, 0, 0],
        Reason::Refused { record, place, why } => {
            let figures = why.figures();
            [
                5,
                place as u64,
                record as u64,
                figures.number as u64,
                figures.expected as u64,
                figures.got as u64,
            ]
        }
        Reason::Owed { announced, owed } => [6, announced as u64, owed as u64, 0, 0, 0],
    }
}

/// The reasons of a symbol's sections, each in slots of its own.
pub fn reasons(
    found: Result<Reasons, Refusal>,
    guid: &mut [u64; 6],
    attributes: &mut [u64; 6],
    extended_flags: &mut [u64; 6],
    chain: &mut [u64; 6],
    answer: &mut [u64; 2],
) -> u32
    ensures tells { Tells (record_told found) result answer.new }
    ensures guid_after { guid.new ≡ slots_after guid_slots found guid.old }
    ensures attributes_after { attributes.new ≡ slots_after attributes_slots found attributes.old }
    ensures extended_after { extended_flags.new ≡ slots_after extended_slots found extended_flags.old }
    ensures chain_after { chain.new ≡ slots_after chain_slots found chain.old }
{
    match found {
        Ok(reasons) => {
            *guid = slots(reasons.guid);
            *attributes = slots(reasons.attributes);
            *extended_flags = slots(reasons.extended_flags);
            *chain = slots(reasons.refactor_infos);
            tell(DONE, 0, 0, answer)
        }
        Err(why) => refused(why, answer),
    }
}

// The theorems, as the contracts of functions that do nothing.

/// The slots of a reason tell which it is, figures included.
pub fn reasons_told()
    ensures { ReasonsTold }
{}

/// The slots stand in their order, by four different reasons of one symbol with every figure different, and the two without figures.
pub fn slots_in_order()
    ensures { SlotsInOrder }
{}
